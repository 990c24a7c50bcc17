//! The run of the program, part by part, and the clauses that it keeps.
ghost use Rattle.std.specs.Prelude.{◌≡◌, ℕ, ◌≤◌, ◌⊎◌, [], map, true, false, IfOk, IfSome, string_bytes};
ghost use Rattle.mn_meaning.specs.Laws.{Precedes};
ghost use Rattle.mn_meaning.specs.Solutions.{listed};
ghost use Rattle.mn_model.specs.Lawful.{IsLawful};
ghost use Rattle.mn_model.specs.Members.{AreDistinct, HoldsInOrder};
ghost use Rattle.mn_model.specs.Problem.{Problem};
ghost use Rattle.mn_model.specs.declared.refusal.Refusal.{Refusal};
ghost use Rattle.mn_options.specs.declared.usage.Usage.{Usage};
ghost use Rattle.mn_driver.specs.Codes.{status_of, unflushed};
ghost use Rattle.mn_driver.specs.Counting.{HasNone};
ghost use Rattle.mn_driver.specs.Ends.{BreaksRule, IsReported, Ends, FailsToRead, FailsToWrite, HasLongText, IsRefusedFor, Prints, RunsOutOfMemory};
ghost use Rattle.mn_driver.specs.Explains.{Answers, Dumps, Misuses, PutsText, Refuses, SaysMemory, Solves, Undumps};
ghost use Rattle.mn_driver.specs.Lists.{LimitsCutShort, SearchesFindAll, SearchesImprove, SearchesList};
ghost use Rattle.mn_driver.specs.Loads.{IsOfText};
ghost use Rattle.mn_driver.specs.Made.{AreLimits, HasLimits};
ghost use Rattle.mn_driver.specs.Outputs.{AddsLine, IsFaultless, input_of, output_of};
ghost use Rattle.mn_driver.specs.Owes.{IsModelStatus, ReportsAll, TextOf, Yields};
ghost use Rattle.mn_driver.specs.Report.{usage_line};
ghost use Rattle.mn_driver.specs.Runs.{HoldsModel, HoldsRefused, IsAbsent};
ghost use Rattle.mn_driver.specs.Words.{Ask, WhereAsked, asked_by, asked_of, broken_by, plan_of};

use crate::load::{Unloaded, obtain};
use crate::plan::Plan;
use crate::request::{Request, requested};
use crate::solve::{Stop, solve};
use crate::status::{Counts, Ended, Status};
use mn_language::one_verdict;
use mn_meaning::{lawful_problems_are_fit, records_are_owed};
use mn_model::Instance;
use mn_options::Usage;
use mn_outside::{Failed, Files, Sink, put_all};
use mn_printer::{PrintFault, print};
use mn_report::{
    MEMORY_LINE, NO_MODEL_LINE, Outcome, READ_LINE, number_line, refused_line, usage_line,
};
use mn_search::{
    solutions_are_visited, solutions_are_visited_once, solutions_improve, visits_are_there,
};
use std::alloc::{AllocError, Global};

/// Writes a line that tells of a fault. Where that fails there is nothing left to say.
fn write_line<O: Sink>(out: &mut O, line: &[u8])
    ensures line { AddsLine (output_of O.content O.faults out.old out.new) [] line.now }
    ensures kept { O.faults out.old ≤ O.faults out.new }
{
    let _ = put_all(out, line);
}

/// A run that counted nothing.
fn uncounted(status: Status) -> Ended
    ensures status { result.status ≡ status }
    ensures none { HasNone result.counts }
{
    Ended {
        status,
        counts: Counts::NONE,
    }
}

/// Writes the line of want of memory.
fn write_memory<O: Sink>(out: &mut O) -> Ended
    ensures memory { SaysMemory (output_of O.content O.faults out.old out.new) result.status }
    ensures none { HasNone result.counts }
    ensures kept { O.faults out.old ≤ O.faults out.new }
{
    write_line(out, MEMORY_LINE);
    uncounted(Status::NoMemory)
}

/// The status of a run whose report is whole.
fn status_of(outcome: Outcome) -> Status
    ensures { result ≡ status_of outcome }
{
    match outcome {
        Outcome::Complete => Status::Complete,
        Outcome::SolutionLimit => Status::AtSolutionLimit,
        Outcome::NodeLimit => Status::AtNodeLimit,
    }
}

/// Writes the report of an instance, and for want of memory the line of that fault behind what was written.
fn write_report<O: Sink>(alloc: Global, inst: &Instance, plan: &Plan, out: &mut O) -> Ended
    requires limits { HasLimits plan.now }
    ensures solves { Solves plan.now inst.now (output_of O.content O.faults out.old out.new) result.status result.counts }
    ensures kept { O.faults out.old ≤ O.faults out.new }
{
    match solve(alloc, inst, plan, out) {
        Ok(solved) => Ended {
            status: status_of(solved.outcome),
            counts: solved.counts,
        },
        Err(stopped) => match stopped.why {
            Stop::Failed => Ended {
                status: Status::WriteFault,
                counts: stopped.counts,
            },
            Stop::NoMemory => {
                write_line(out, MEMORY_LINE);
                Ended {
                    status: Status::NoMemory,
                    counts: stopped.counts,
                }
            }
        },
    }
}

/// Writes the line that tells why there is no instance.
fn write_refusal<O: Sink>(alloc: Global, why: Unloaded, out: &mut O) -> Ended
    requires { IsOfText why }
    ensures refuses { Refuses why (output_of O.content O.faults out.old out.new) result.status }
    ensures none { HasNone result.counts }
    ensures kept { O.faults out.old ≤ O.faults out.new }
{
    match why {
        Unloaded::Failed => {
            write_line(out, READ_LINE);
            uncounted(Status::ReadFault)
        }
        Unloaded::Refused(why, line) => match refused_line(alloc, &why, line) {
            Ok(line) => {
                write_line(out, line.as_slice());
                uncounted(Status::Refused(why))
            }
            Err(_) => write_memory(out),
        },
        Unloaded::NoMemory => write_memory(out),
    }
}

/// The line of the rule that words break.
fn broken_line(alloc: Global, rule: Usage) -> Result<Vec<u8>, AllocError>
    ensures { IfOk result (λ line. line.items ≡ usage_line rule) }
{
    match rule {
        Usage::Unknown(i) => usage_line(alloc, "unknown", i),
        Usage::MissingValue(i) => usage_line(alloc, "missing value", i),
        Usage::BadNumber(i) => usage_line(alloc, "bad number", i),
        Usage::Twice(i) => usage_line(alloc, "twice", i),
        Usage::SecondModel(i) => usage_line(alloc, "second model", i),
        Usage::Clash(i) => usage_line(alloc, "clash", i),
        Usage::NoModel => Vec::from_slice(alloc, NO_MODEL_LINE),
        Usage::NoMemory => Ok(Vec::new(alloc)),
    }
}

/// Writes the line of the rule that the words break.
fn write_usage<O: Sink>(alloc: Global, rule: Usage, out: &mut O) -> Ended
    ensures misuses { Misuses rule (output_of O.content O.faults out.old out.new) result.status }
    ensures memory { rule ≡ Usage.NoMemory → result.status ≡ Status.NoMemory }
    ensures none { HasNone result.counts }
    ensures kept { O.faults out.old ≤ O.faults out.new }
{
    match rule {
        Usage::NoMemory => write_memory(out),
        // A line that never changes takes no memory.
        Usage::NoModel => {
            write_line(out, NO_MODEL_LINE);
            uncounted(Status::Usage(rule))
        }
        rule => match broken_line(alloc, rule) {
            Ok(line) => {
                write_line(out, line.as_slice());
                uncounted(Status::Usage(rule))
            }
            Err(_) => write_memory(out),
        },
    }
}

/// Writes a model's text as one piece.
fn write_text<O: Sink>(text: &[u8], out: &mut O) -> Ended
    ensures puts { PutsText text.now (output_of O.content O.faults out.old out.new) result.status }
    ensures none { HasNone result.counts }
    ensures kept { O.faults out.old ≤ O.faults out.new }
{
    match put_all(out, text) {
        Ok(()) => uncounted(Status::Printed),
        Err(Failed) => uncounted(Status::WriteFault),
    }
}

/// Writes the line that tells why there is no text to write.
fn write_print_fault<O: Sink>(alloc: Global, fault: PrintFault, out: &mut O) -> Ended
    ensures undumps { Undumps fault (output_of O.content O.faults out.old out.new) result.status }
    ensures none { HasNone result.counts }
    ensures kept { O.faults out.old ≤ O.faults out.new }
{
    match fault {
        PrintFault::TooLong(n) => {
            match number_line(alloc, "Fault: dump too long, ", n as u128, " bytes") {
                Ok(line) => {
                    write_line(out, line.as_slice());
                    uncounted(Status::DumpTooLong(n))
                }
                Err(_) => write_memory(out),
            }
        }
        PrintFault::NoMemory => write_memory(out),
    }
}

/// Writes the text of an instance, or the line that tells why there is none.
fn write_dump<O: Sink>(alloc: Global, inst: &Instance, out: &mut O) -> Ended
    ensures dumps { Dumps inst.now (output_of O.content O.faults out.old out.new) result.status result.counts }
    ensures kept { O.faults out.old ≤ O.faults out.new }
{
    match print(alloc, inst) {
        Ok(text) => write_text(text.as_slice(), out),
        Err(fault) => write_print_fault(alloc, fault, out),
    }
}

/// Does what the words ask for with an instance.
fn write_answer<O: Sink>(alloc: Global, inst: &Instance, request: &Request, out: &mut O) -> Ended
    requires limits { AreLimits request.now.sol_limit request.now.node_limit }
    ensures answers { Answers (asked_of request.now) inst.now
        (output_of O.content O.faults out.old out.new) result.status result.counts }
    ensures kept { O.faults out.old ≤ O.faults out.new }
{
    if request.redump {
        write_dump(alloc, inst, out)
    } else {
        write_report(alloc, inst, &request.plan(inst.goal()), out)
    }
}

/// All but the last flush.
fn unfinished<F: Files, O: Sink>(
    alloc: Global,
    words: &Vec<String>,
    files: &mut F,
    out: &mut O,
) -> Ended
    ensures ends { Ends (input_of F.content F.reading files.old files.new) (map string_bytes words.now.items)
        (output_of O.content O.faults out.old out.new) result.status result.counts }
    ensures kept { O.faults out.old ≤ O.faults out.new }
    ensures same_content { F.content files.new ≡ F.content files.old }
{
    let request = match requested(alloc, words) {
        Ok(request) => request,
        Err(rule) => return write_usage(alloc, rule, out),
    };
    match obtain(alloc, files, &request.model) {
        Ok(inst) => write_answer(alloc, &inst, &request, out),
        Err(why) => write_refusal(alloc, why, out),
    }
}

/// How a run ends whose last flush failed: with that fault, if there was none before.
fn unflushed(ended: Ended) -> Ended
    ensures status { result.status ≡ unflushed ended.status }
    ensures counts { result.counts ≡ ended.counts }
{
    let status = match ended.status {
        Status::Complete | Status::AtSolutionLimit | Status::AtNodeLimit | Status::Printed => {
            Status::WriteFault
        }
        other => other,
    };
    Ended { status, ..ended }
}

/// The whole run.
fn finished<F: Files, O: Sink>(
    alloc: Global,
    words: &Vec<String>,
    files: &mut F,
    out: &mut O,
) -> Ended
    ensures ends { Ends (input_of F.content F.reading files.old files.new) (map string_bytes words.now.items)
        (output_of O.content O.faults out.old out.new) result.status result.counts }
    ensures same_content { F.content files.new ≡ F.content files.old }
{
    let ended = unfinished(alloc, words, files, out);
    match out.flush() {
        Ok(()) => ended,
        Err(Failed) => unflushed(ended),
    }
}

/// The program: finds what the words ask for, reads the model, and writes its report, or its text.
pub fn run<F: Files, O: Sink>(
    alloc: Global,
    words: &Vec<String>,
    files: &mut F,
    out: &mut O,
) -> Ended
    // The headline. The words ask for the solutions of a model, the named file holds one, and no fault is counted: then
    // exactly the report of the model, which is lawful, is written, unless memory runs out. So for the model's text.
    ensures printed { WhereAsked words.now.items (λ a. (p : Problem)
        → a.redump ≡ false → HoldsModel (F.content files.old) a.model p
        → IsFaultless (input_of F.content F.reading files.old files.new)
        (output_of O.content O.faults out.old out.new) a.model
        → ReportsAll (plan_of a p.goal) p (output_of O.content O.faults out.old out.new) result.status result.counts
        ⊎ (result.status ≡ Status.NoMemory)) }
    ensures redumped { WhereAsked words.now.items (λ a. (p : Problem)
        → a.redump ≡ true → HoldsModel (F.content files.old) a.model p
        → IsFaultless (input_of F.content F.reading files.old files.new)
        (output_of O.content O.faults out.old out.new) a.model
        → TextOf p (output_of O.content O.faults out.old out.new) result.status result.counts
        ⊎ (result.status ≡ Status.NoMemory)) }
    // What a whole search of a lawful instance finds. By the order of variables it is what is listed: each solution that is
    // owed once, in the order of the search. By another choice it is all solutions, each once, or with an objective some that
    // are each better than all before them, the last as good as any.
    ensures in_order { SearchesList }
    ensures each_once { (p : Problem) → IsLawful p
        → AreDistinct (listed p) × HoldsInOrder (Precedes p) (listed p) }
    ensures in_any_order { SearchesFindAll }
    ensures improving { SearchesImprove }
    // What the report has of it: its first visits, as many as the limits allow.
    ensures limited { LimitsCutShort }

    // Complete: the whole report of the one instance of which the named file holds a text.
    ensures complete { result.status ≡ Status.Complete → Ask words.now.items
        (IsReported Outcome.Complete (F.content files.old) (output_of O.content O.faults out.old out.new) result.counts) }

    // At a limit: the report of that instance up to there, and a visit is left.
    ensures at_solution_limit { result.status ≡ Status.AtSolutionLimit → Ask words.now.items
        (IsReported Outcome.SolutionLimit (F.content files.old) (output_of O.content O.faults out.old out.new) result.counts) }
    ensures at_node_limit { result.status ≡ Status.AtNodeLimit → Ask words.now.items
        (IsReported Outcome.NodeLimit (F.content files.old) (output_of O.content O.faults out.old out.new) result.counts) }

    // Printed: the canonical text of that instance, where it was asked for and isn't too long. Else how long it is.
    ensures dumped { result.status ≡ Status.Printed → Ask words.now.items
        (Prints (F.content files.old) (output_of O.content O.faults out.old out.new) result.counts) }
    ensures dump_too_long { (n : ℕ) → result.status ≡ Status.DumpTooLong n → Ask words.now.items
        (HasLongText n (F.content files.old) (output_of O.content O.faults out.old out.new) result.counts) }

    // A fault of the output: its count rose, and a front of what is asked for stands. Of a report as many solutions are
    // counted as have their blocks whole, and the visits up to the one that comes to the next; or all where they aren't
    // printed.
    ensures write_fault { result.status ≡ Status.WriteFault → Ask words.now.items
        (FailsToWrite (F.content files.old) (output_of O.content O.faults out.old out.new) result.counts) }

    // A fault of reading: the count of the model's name rose, and nothing but the fault's line was written.
    ensures read_fault { result.status ≡ Status.ReadFault → Ask words.now.items
        (FailsToRead (input_of F.content F.reading files.old files.new)
        (output_of O.content O.faults out.old out.new) result.counts) }

    // Want of memory: a front of the report, with so many solutions counted and no more visits than there are, and behind it
    // the fault's line.
    ensures no_memory { result.status ≡ Status.NoMemory → RunsOutOfMemory (F.content files.old)
        (asked_by words.now.items) (output_of O.content O.faults out.old out.new) result.counts }

    // A text that is refused: why, and nothing but the fault's line.
    ensures refused { (why : Refusal) → result.status ≡ Status.Refused why → Ask words.now.items
        (IsRefusedFor why (F.content files.old) (output_of O.content O.faults out.old out.new) result.counts) }

    // Words that break a rule: that rule first, and nothing but its line. Unless memory runs out they have no other answer.
    ensures usage { (rule : Usage) → result.status ≡ Status.Usage rule
        → BreaksRule rule (broken_by words.now.items) (output_of O.content O.faults out.old out.new) result.counts }
    ensures broken { IfSome (broken_by words.now.items) (λ rule.
        (result.status ≡ Status.Usage rule) ⊎ (result.status ≡ Status.NoMemory)) }

    // Where the files tell, each file has its answer, unless reading fails or memory runs out.
    ensures model { WhereAsked words.now.items (λ a. (p : Problem)
        → HoldsModel (F.content files.old) a.model p → IsModelStatus a.redump (plan_of a p.goal) p result.status) }
    ensures refuses { WhereAsked words.now.items (λ a. (why : Refusal) (line : ℕ)
        → HoldsRefused (F.content files.old) a.model why line → Yields result.status (Status.Refused why)) }
    ensures absent { WhereAsked words.now.items (λ a.
        IsAbsent (F.content files.old) a.model → Yields result.status Status.ReadFault) }

    ensures same_files { F.content files.new ≡ F.content files.old }
{
    one_verdict();
    lawful_problems_are_fit();
    records_are_owed();
    visits_are_there();
    solutions_are_visited();
    solutions_are_visited_once();
    solutions_improve();
    finished(alloc, words, files, out)
}

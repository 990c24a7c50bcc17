//! The summary, and the lines that tell of a fault.
ghost use Rattle.std.specs.Prelude.{◌≡◌, ◌≢◌, IfOk};
ghost use Rattle.mn_model.specs.declared.refusal.Refusal.{Refusal};
ghost use Rattle.mn_report.specs.Lines.{kind_text, limit_text, number_text, outcome_text, place_of, refused_text, summary_text, usage_text};

use itoa::Buffer;
use mn_model::{Refusal, Which};
use std::alloc::{AllocError, Global};

/// A model that can't be read.
pub const READ_LINE: &[u8] = b"Fault: read\n";
/// Memory ran out.
pub const MEMORY_LINE: &[u8] = b"Fault: no memory\n";
/// The words of the command line name no model.
pub const NO_MODEL_LINE: &[u8] = b"Usage: no model\n";

/// How a search ended.
#[derive(Clone, Copy, Debug, PartialEq, Eq)]
pub enum Outcome {
    /// No visit is left.
    Complete,
    /// As many solutions were found as were asked for, and a visit is left.
    SolutionLimit,
    /// As many nodes were visited as were allowed, and a visit is left.
    NodeLimit,
}

fn outcome_name(outcome: Outcome) -> &'static str
    ensures { result.now ≡ outcome_text outcome }
{
    match outcome {
        Outcome::Complete => "complete",
        Outcome::SolutionLimit => "solution limit",
        Outcome::NodeLimit => "node limit",
    }
}

/// What stands after all blocks.
pub fn summary(
    alloc: Global,
    solutions: u64,
    nodes: u64,
    outcome: Outcome,
) -> Result<Vec<u8>, AllocError>
    ensures { IfOk result (λ text. text.items ≡ summary_text solutions nodes outcome) }
{
    let mut digits = Buffer::new();
    let mut text = Vec::from_slice(alloc, b"Solutions: ")?;
    text.extend_from_slice(digits.format(solutions).as_bytes())?;
    text.extend_from_slice(b"\nNodes: ")?;
    text.extend_from_slice(digits.format(nodes).as_bytes())?;
    text.extend_from_slice(b"\nOutcome: ")?;
    text.extend_from_slice(outcome_name(outcome).as_bytes())?;
    text.extend_from_slice(b"\n")?;
    Ok(text)
}

fn limit_name(which: Which) -> &'static str
    ensures { result.now ≡ limit_text which }
{
    match which {
        Which::Text => "limit text",
        Which::Variables => "limit variables",
        Which::Constraints => "limit constraints",
        Which::Cells => "limit cells",
        Which::Nesting => "limit nesting",
        Which::Span => "limit span",
        Which::Vector => "limit vector",
    }
}

fn kind_name(why: &Refusal) -> &'static str
    ensures { result.now ≡ kind_text why.now }
{
    match why {
        Refusal::Lex(_) => "lex",
        Refusal::NumberRange(_) => "number range",
        Refusal::Syntax(_) => "syntax",
        Refusal::Name(_) => "name",
        Refusal::Shape(_) => "shape",
        Refusal::EmptyDomain(_) => "empty domain",
        Refusal::Limit(which, _) => limit_name(*which),
        Refusal::Unsupported(_) => "unsupported",
        Refusal::NoMemory => "",
    }
}

/// The byte of a refusal, and 0 where memory is wanting.
pub fn place_of(why: &Refusal) -> u64
    ensures { result ≡ place_of why.now }
{
    match why {
        Refusal::Lex(at)
        | Refusal::NumberRange(at)
        | Refusal::Syntax(at)
        | Refusal::Name(at)
        | Refusal::Shape(at)
        | Refusal::EmptyDomain(at)
        | Refusal::Limit(_, at)
        | Refusal::Unsupported(at) => *at,
        Refusal::NoMemory => 0,
    }
}

/// The line of a text that is refused. Want of memory refuses no text: it has a line of its own.
pub fn refused_line(alloc: Global, why: &Refusal, line: u64) -> Result<Vec<u8>, AllocError>
    requires { why.now ≢ Refusal.NoMemory }
    ensures { IfOk result (λ text. text.items ≡ refused_text why.now line) }
{
    let mut digits = Buffer::new();
    let mut text = Vec::from_slice(alloc, b"Refused: ")?;
    text.extend_from_slice(kind_name(why).as_bytes())?;
    text.extend_from_slice(b", byte ")?;
    text.extend_from_slice(digits.format(place_of(why)).as_bytes())?;
    text.extend_from_slice(b", line ")?;
    text.extend_from_slice(digits.format(line).as_bytes())?;
    text.extend_from_slice(b"\n")?;
    Ok(text)
}

/// The line of a rule that a word of the command line breaks. The word's number is counted from 0.
pub fn usage_line(alloc: Global, rule: &str, word: u64) -> Result<Vec<u8>, AllocError>
    ensures { IfOk result (λ text. text.items ≡ usage_text rule.now word) }
{
    let mut digits = Buffer::new();
    let mut text = Vec::from_slice(alloc, b"Usage: ")?;
    text.extend_from_slice(rule.as_bytes())?;
    text.extend_from_slice(b", word ")?;
    text.extend_from_slice(digits.format(word).as_bytes())?;
    text.extend_from_slice(b"\n")?;
    Ok(text)
}

/// A line with a number in it.
pub fn number_line(alloc: Global, before: &str, n: u128, after: &str) -> Result<Vec<u8>, AllocError>
    ensures { IfOk result (λ text. text.items ≡ number_text before.now n after.now) }
{
    let mut digits = Buffer::new();
    let mut text = Vec::from_slice(alloc, before.as_bytes())?;
    text.extend_from_slice(digits.format(n).as_bytes())?;
    text.extend_from_slice(after.as_bytes())?;
    text.extend_from_slice(b"\n")?;
    Ok(text)
}

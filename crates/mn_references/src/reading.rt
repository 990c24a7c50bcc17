//! A reference by itself, with the mark that follows it.
ghost use Rattle.std.specs.Prelude.{◌≡◌, true, IfErr, IfOk};
ghost use Rattle.mn_grammar.specs.Gives.{Stops};
ghost use Rattle.mn_grammar.specs.Lawful.{Lawful};
ghost use Rattle.mn_grammar.specs.declared.site.Site.TheVariants.{MarksOnly};
ghost use Rattle.mn_lexer.specs.declared.marks.Mark.{Mark};
ghost use Rattle.mn_model.specs.Problem.{Problem};
ghost use Rattle.mn_cursor.specs.Looks.{Sees};
ghost use Rattle.mn_references.specs.Lookups.{found_seen};
ghost use Rattle.mn_cursor.specs.Progress.{rest, Moves};
ghost use Rattle.mn_references.specs.Wanted.{at_mark, followed_spec, may_follow, reference_then, which_may_follow, IsReference, ReadsReference};

use crate::aims::Aimed;
use crate::references::{Reference, kind_of, reference_at};
use crate::scan::Scan;
use crate::{Unfit, Want};
use mn_cursor::{Cursor, Seen};
use mn_grammar::{Kind, Site, Stop};
use mn_lexer::Mark;
use mn_model::{Refusal, VarIds};

// Whether a mark may follow.
fn may_follow(want: Want, mark: Mark) -> bool
    ensures { result ≡ may_follow want mark }
{
    match mark {
        Mark::Comma => want.comma,
        Mark::CloseRound => want.round,
        Mark::CloseSquare => want.square,
        _ => false,
    }
}

// The mark at the place, if it may follow.
fn sees_following(scan: &Scan, want: Want) -> Result<Mark, Stop>
    ensures sees { Sees MarksOnly (which_may_follow want) (λ m. m) (rest scan.now) result }
{
    match scan.look() {
        Some(Seen::Mark(mark)) if may_follow(want, mark) => Ok(mark),
        _ => Err(scan.unwanted(Site::MarksOnly)),
    }
}

// What a mark breaks after a reference.
fn mark_kind(want: Want, reference: &Reference, next: Mark) -> Option<Kind>
    ensures { result ≡ at_mark want (found_seen reference.now) next }
{
    let unfit = reference.behind?;
    let passes = match next {
        Mark::Comma => want.square && reference.vars.len() == want.room as usize,
        _ => false,
    };
    kind_of(Some(if passes { Unfit::Length } else { unfit }))
}

// Reads a reference, up to the mark after it.
fn reference_before(scan: &mut Scan, want: Want) -> Result<VarIds, Stop>
    ensures moves { Moves scan.old scan.new }
    ensures ok { IfOk result (λ vars. IsReference want scan.new vars (reference_then scan.old.problem want (rest scan.old))) }
    ensures err { IfErr result (λ e. Stops e (reference_then scan.old.problem want (rest scan.old))) }
{
    let reference = reference_at(scan, Aimed::Told(want))?;
    let next = sees_following(scan, want)?;
    if let Some(kind) = mark_kind(want, &reference, next) {
        return Err(scan.refused(kind));
    }
    Ok(reference.vars)
}

/// Reads a reference, and looks at the mark after it, which stays unread. Only the marks that are wanted may follow.
pub fn reference(c: &mut Cursor, want: Want) -> Result<VarIds, Refusal>
    ensures moves { Moves c.old c.new }
    ensures reads { ReadsReference want c.old c.new result (reference_then c.old.problem want (rest c.old)) }
{
    let mut scan = Scan::new(c);
    let result = reference_before(&mut scan, want);
    let left = scan.left();
    match result {
        Ok(vars) => {
            c.go_to(left);
            Ok(vars)
        }
        Err(stop) => Err(c.refusal(stop)),
    }
}

/// A law: the reader of a reference and the mark after it is lawful for their language. So it answers exactly what they
/// stand for, and refuses all else at the right token and with the right kind.
pub fn reference_law()
    ensures { (p : Problem) (want : Want) (m : Mark) (may : may_follow want m ≡ true) → Lawful (followed_spec p want m may) (reference_then p want) }
{}

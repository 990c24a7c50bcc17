//! Rounds of passes.
ghost use Rattle.std.specs.Prelude.{◌≡◌, ◌<◌, ◌≤◌, ◌⊎◌, IfOk, OnErr, OnOk, length, map, not};
ghost use Rattle.mn_boxes.specs.Boxes.{count_of};
ghost use Rattle.mn_prop.specs.Contexts.{box_of, vars_of};
ghost use Rattle.mn_prop.specs.Passes.{Keeps, NoneHas, OnlyTakes};
ghost use Rattle.mn_engine.specs.Settling.{AreReady, ClosedEach, ComesAt, FirstClosed, IsSettled, closed_last};

use mn_prop::{Ctx, Fail, Runner};

// The place that comes after `i` others, from the first place or from the last.
fn place(i: usize, len: usize, back: bool) -> usize
    requires { i < len }
    ensures { ComesAt back len i result }
{
    if back { len - 1 - i } else { i }
}

// Under how many of the last the sets are closed, once one more passed.
fn closed_after(moved: bool, settles: bool, last: usize) -> usize
    requires { last < usize.MAX }
    ensures { result ≡ closed_last moved settles last }
{
    match (moved, settles) {
        (false, _) => last + 1,
        (true, true) => 1,
        (true, false) => 0,
    }
}

/// One pass of each propagator after the first `from`, in order or in the other direction. The sets are closed under those.
/// Says under how many of the last they are closed afterwards: under those that passed since a value went, and if nothing
/// went under all.
fn pass_all<P: Runner>(
    runners: &mut Vec<P>,
    c: &mut Ctx,
    back: bool,
    from: usize,
) -> Result<usize, Fail>
    requires ready { AreReady (vars_of c.old) (map P.posted runners.old.items) }
    requires within { from ≤ length runners.old.items }
    requires closed { FirstClosed back (vars_of c.old) (map P.posted runners.old.items) from (box_of c.old) }
    ensures posted { map P.posted runners.new.items ≡ map P.posted runners.old.items }
    ensures takes { OnlyTakes c.old c.new }
    ensures sound { OnOk result (Keeps (vars_of c.old) (ClosedEach (vars_of c.old) (map P.posted runners.old.items)) (box_of c.old) (box_of c.new)) }
    ensures fail { OnErr result (NoneHas (vars_of c.old) (ClosedEach (vars_of c.old) (map P.posted runners.old.items)) (box_of c.old)) }
    ensures within { IfOk result (λ last. last ≤ length runners.old.items) }
    ensures closed { IfOk result (λ last. FirstClosed (not back) (vars_of c.old) (map P.posted runners.old.items) last (box_of c.new)) }
    ensures fewer { IfOk result (λ last. (last ≡ length runners.old.items) ⊎ (count_of (box_of c.new) < count_of (box_of c.old))) }
{
    let len = runners.len();
    let mut last = from;
    for i in from..len {
        let at = place(i, len, back);
        c.rest();
        runners[at].pass(c)?;
        last = closed_after(c.moved(), runners[at].settles(), last);
    }
    Ok(last)
}

/// Passes of the propagators until the sets are closed under each, in order and in the other direction in turn: what goes
/// from constraint to constraint takes one round, whichever way they are written. A round begins after those under which
/// the sets are closed.
pub fn settle_all<P: Runner>(runners: &mut Vec<P>, c: &mut Ctx) -> Result<(), Fail>
    requires { AreReady (vars_of c.old) (map P.posted runners.old.items) }
    ensures posted { map P.posted runners.new.items ≡ map P.posted runners.old.items }
    ensures takes { OnlyTakes c.old c.new }
    ensures ok { OnOk result (IsSettled (vars_of c.old) (map P.posted runners.old.items) (box_of c.old) (box_of c.new)) }
    ensures fail { OnErr result (NoneHas (vars_of c.old) (ClosedEach (vars_of c.old) (map P.posted runners.old.items)) (box_of c.old)) }
{
    c.lawful();
    let mut back = false;
    let mut closed = 0;
    loop {
        let last = pass_all(runners, c, back, closed)?;
        if last == runners.len() {
            return Ok(());
        }
        closed = last;
        back = !back;
    }
}

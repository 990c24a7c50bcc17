//! Narrowing by an exact test of support.
ghost use Rattle.std.specs.Prelude.{◌≡◌, ◌<◌, false, length, true};
ghost use Rattle.mn_model.specs.Parts.{places};
ghost use Rattle.mn_boxes.specs.Places.{PlaceHas, is_place_bounded};
ghost use Rattle.mn_closure.specs.Supports.{StandsAt};
ghost use Rattle.mn_prop.specs.Contexts.{IsGreatestAt, IsLeastAt, IsNamed, box_of, vars_of};
ghost use Rattle.mn_prop.specs.Losses.{Unsupported};
ghost use Rattle.mn_prop.specs.Passes.{IsStep};
ghost use Rattle.mn_prop.specs.Posts.{ClosedUnderLeaf, IsReadyToRun};
ghost use Rattle.mn_prop.specs.Revising.{AllSupported, AsksEach, AsksEnds, EndSupported, EndsAlone, PlaceClosed, ValueSupported};

use crate::context::{Ctx, Fail};
use crate::support::SupportTest;
use mn_model::Term;

// Takes the least value of a place off as long as it isn't supported.
fn prune_low<T: SupportTest>(tested: &T, c: &mut Ctx, i: usize, t: Term) -> Result<(), Fail>
    requires ready { IsReadyToRun (vars_of c.old) (T.posted tested.now) }
    requires stands { StandsAt (T.posted tested.now).con i t }
    ensures { IsStep (Unsupported (T.posted tested.now)) (EndSupported IsLeastAt (T.posted tested.now) i t) c.old c.new result }
{
    loop {
        let a = c.lo(t);
        if tested.supported(c, i, a) {
            return Ok(());
        }
        c.remove(t, a)?;
    }
}

// Takes the greatest value of a place off as long as it isn't supported.
fn prune_high<T: SupportTest>(tested: &T, c: &mut Ctx, i: usize, t: Term) -> Result<(), Fail>
    requires ready { IsReadyToRun (vars_of c.old) (T.posted tested.now) }
    requires stands { StandsAt (T.posted tested.now).con i t }
    ensures { IsStep (Unsupported (T.posted tested.now)) (EndSupported IsGreatestAt (T.posted tested.now) i t) c.old c.new result }
{
    loop {
        let a = c.hi(t);
        if tested.supported(c, i, a) {
            return Ok(());
        }
        c.remove(t, a)?;
    }
}

// Takes a value of a place that loses any value, if it isn't supported.
fn test_value<T: SupportTest>(
    tested: &T,
    c: &mut Ctx,
    i: usize,
    t: Term,
    a: i64,
) -> Result<(), Fail>
    requires ready { IsReadyToRun (vars_of c.old) (T.posted tested.now) }
    requires stands { StandsAt (T.posted tested.now).con i t }
    requires unbounded { is_place_bounded (vars_of c.old) t ≡ false }
    requires there { PlaceHas (box_of c.old) t a }
    ensures { IsStep (Unsupported (T.posted tested.now)) (ValueSupported (T.posted tested.now) i t a) c.old c.new result }
{
    if tested.supported(c, i, a) {
        return Ok(());
    }
    c.remove(t, a)
}

// Takes each value of a place that loses any value, if it isn't supported.
fn test_each<T: SupportTest>(tested: &T, c: &mut Ctx, i: usize, t: Term) -> Result<(), Fail>
    requires ready { IsReadyToRun (vars_of c.old) (T.posted tested.now) }
    requires stands { StandsAt (T.posted tested.now).con i t }
    requires unbounded { is_place_bounded (vars_of c.old) t ≡ false }
    ensures { IsStep (Unsupported (T.posted tested.now)) (AllSupported (T.posted tested.now) i t) c.old c.new result }
{
    let mut a = c.lo(t);
    loop {
        test_value(tested, c, i, t, a)?;
        match c.next(t, a) {
            Some(next) => a = next,
            None => return Ok(()),
        }
    }
}

// Whether a value between the ends of a place may be taken out.
fn goes_inside(c: &Ctx, t: Term) -> bool
    requires { IsNamed (vars_of c.now) t }
    ensures inside { result ≡ true → is_place_bounded (vars_of c.now) t ≡ false }
    ensures ends { result ≡ false → EndsAlone (vars_of c.now) t (box_of c.now) }
{
    c.lawful();
    let (lo, hi) = (c.lo(t), c.hi(t));
    match c.next(t, lo) {
        Some(a) => {
            if a == hi {
                return false;
            }
            c.may_remove(t, a)
        }
        None => false,
    }
}

// Whether each value of a place has to be supported, and not only its ends.
fn asks_each<T: SupportTest>(tested: &T, c: &Ctx, t: Term) -> bool
    requires { IsNamed (vars_of c.now) t }
    ensures each { result ≡ true → AsksEach (vars_of c.now) (T.posted tested.now).con t }
    ensures ends { result ≡ false → AsksEnds (vars_of c.now) (T.posted tested.now).con t (box_of c.now) }
{
    if tested.by_ends() {
        return false;
    }
    goes_inside(c, t)
}

/// Takes each value of one place that isn't supported. Of a place that loses values at its ends alone the ends are taken,
/// until they are supported.
pub fn revise<T: SupportTest>(tested: &T, c: &mut Ctx, i: usize) -> Result<(), Fail>
    requires ready { IsReadyToRun (vars_of c.old) (T.posted tested.now) }
    requires within { i < length (places (T.posted tested.now).con) }
    ensures { IsStep (Unsupported (T.posted tested.now)) (PlaceClosed (vars_of c.old) (T.posted tested.now) i) c.old c.new result }
{
    c.lawful();
    let t = tested.term(i);
    if asks_each(tested, c, t) {
        return test_each(tested, c, i, t);
    }
    prune_low(tested, c, i, t)?;
    prune_high(tested, c, i, t)
}

/// Takes each value that isn't supported, as far as one round over the places finds them. Of a place that loses values at
/// its ends alone the ends are taken, until they are supported.
pub fn revise_all<T: SupportTest>(tested: &T, c: &mut Ctx) -> Result<(), Fail>
    requires { IsReadyToRun (vars_of c.old) (T.posted tested.now) }
    ensures { IsStep (Unsupported (T.posted tested.now)) (ClosedUnderLeaf (vars_of c.old) (T.posted tested.now)) c.old c.new result }
{
    if !tested.bare() {
        return Err(Fail);
    }
    for i in 0..tested.places() {
        revise(tested, c, i)?;
    }
    Ok(())
}

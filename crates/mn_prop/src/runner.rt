//! What a propagator promises.
ghost use Rattle.std.specs.Prelude.{◌≡◌, ◌<◌, Bool, IfOk, OnOk, length, true};
ghost use Rattle.mn_model.specs.Parts.{places};
ghost use Rattle.mn_boxes.specs.Boxes.{declared_variables};
ghost use Rattle.mn_closure.specs.Supports.{StandsAt};
ghost use Rattle.mn_domains.specs.Changes.{AddsFlags};
ghost use Rattle.mn_prop.specs.Contexts.{box_of, vars_of};
ghost use Rattle.mn_prop.specs.Footings.{Footing};
ghost use Rattle.mn_prop.specs.Losses.{LetsGo};
ghost use Rattle.mn_prop.specs.Passes.{IsStep};
ghost use Rattle.mn_prop.specs.Posts.{ClosedUnder, IsReadyToRun, Posted, beside};

use crate::context::{Ctx, Fail};
use mn_domains::Doms;
use mn_model::{Con, Instance, Term};
use std::alloc::{AllocError, Global};

/// A constraint that was posted, its scope, which is the terms at its places, and what the context keeps of it.
pub trait Scoped {
    ghost posted: { Self → Posted };

    ghost footing: { Self → Footing };

    /// How many places the constraint has.
    fn places(&self) -> usize
        ensures { result ≡ length (places (posted self.now).con) };

    /// The term at a place.
    fn term(&self, i: usize) -> Term
        requires { i < length (places (posted self.now).con) }
        ensures { StandsAt (posted self.now).con i result };
}

/// What narrows the places of a constraint, beside tuple lists that the constraint may name.
pub trait Runner: Scoped {
    ghost rests: { Self → Bool };

    /// Whether a pass leaves nothing for another one to do, if no other constraint takes values.
    fn settles(&self) -> bool
        ensures { result ≡ rests self.now };

    /// Takes values that aren't supported, or fails. Every value that is in a closed box stays.
    fn pass(&mut self, c: &mut Ctx) -> Result<(), Fail>
        requires ready { IsReadyToRun (vars_of c.old) (Self.posted self.old) }
        ensures posted { Self.posted self.new ≡ Self.posted self.old }
        ensures footing { Self.footing self.new ≡ Self.footing self.old }
        ensures rests { rests self.new ≡ rests self.old }
        // No value went that was supported when it went.
        ensures step { IsStep (LetsGo (Self.posted self.old)) (ClosedUnder (vars_of c.old) (Self.posted self.old)) c.old c.new result }
        ensures settled { OnOk result (rests self.old ≡ true → ClosedUnder (vars_of c.old) (Self.posted self.old) (box_of c.new)) };
}

/// What can be made for each constraint of an instance.
pub trait Make<'a>: Runner + Sized {
    /// What narrows the constraint, which is one of the instance or another that can be propagated beside it. It may have
    /// flags of its own.
    fn make(
        alloc: Global,
        inst: &'a Instance,
        con: &'a Con,
        doms: &mut Doms,
    ) -> Result<Self, AllocError>
        requires ready { IsReadyToRun (declared_variables inst.now.decls) (beside inst.now.tuples con.now) }
        ensures posted { IfOk result (λ p. Self.posted p ≡ beside inst.now.tuples con.now) }
        ensures doms { AddsFlags doms.old doms.new };
}

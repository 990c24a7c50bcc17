//! What narrows a constraint of an index.
ghost use Rattle.std.specs.Prelude.{◌≡◌, IfOk, false};
ghost use Rattle.mn_boxes.specs.Boxes.{declared_variables};
ghost use Rattle.mn_prop.specs.Footings.{no_footing};
ghost use Rattle.mn_prop.specs.Posts.{IsReadyToRun, beside};
ghost use Rattle.mn_element.specs.Elements.{IsOfIndex, element_of};

use crate::gathered::Gathered;
use crate::indexed::Indexed;
use mn_model::{Con, Instance, Term};
use mn_prop::{Ctx, Fail, Runner, Scoped};
use std::alloc::{AllocError, Global};

/// The entry of a vector at an index is the result.
#[derive(Drop)]
pub struct Element<'a> {
    of: Indexed<'a>,
    /// The sets that a pass fills, where they aren't too large.
    sets: Option<Gathered>,
}

impl<'a> Element<'a> {
    /// What narrows the constraint, beside the tuple lists of the instance.
    pub fn build(alloc: Global, inst: &'a Instance, con: &'a Con) -> Result<Element<'a>, AllocError>
        requires form { IsOfIndex con.now }
        requires ready { IsReadyToRun (declared_variables inst.now.decls) (beside inst.now.tuples con.now) }
        ensures { IfOk result (λ e. element_of e ≡ beside inst.now.tuples con.now) }
    {
        let of = Indexed::of(inst, con);
        let sets = Gathered::build(alloc, &of)?;
        Ok(Element { of, sets })
    }
}

impl Scoped for Element<'_> {
    ghost posted = { element_of };

    ghost footing = { λ e. no_footing };

    fn places(&self) -> usize {
        self.of.places()
    }

    fn term(&self, i: usize) -> Term {
        self.of.term(i)
    }
}

impl Runner for Element<'_> {
    ghost rests = { λ e. false };

    // What goes from one place may go from another that names the same variable.
    fn settles(&self) -> bool {
        false
    }

    fn pass(&mut self, c: &mut Ctx) -> Result<(), Fail> {
        match &mut self.sets {
            Some(sets) => sets.filter(&self.of, c),
            None => self.of.filter(c),
        }
    }
}

//! How the declared sets are held.
ghost use Rattle.std.specs.Prelude.{◌≡◌, ◌+◌, ◌^◌, ◌≤◌, [], ◌++◌, IfOk, IsTrue, OnOk, length, replicate, take, true, false};
ghost use Rattle.mn_model.specs.Domain.{IsDomain};
ghost use Rattle.mn_model.specs.Lawful.{IsLawfulDecl, SuitsKind};
ghost use Rattle.mn_model.specs.Problem.{variable_count};
ghost use Rattle.mn_boxes.specs.Boxes.{declared_variables};
ghost use Rattle.mn_boxes.specs.Sets.{variable_of};
ghost use Rattle.mn_domains.specs.Held.{IsShape, is_bounded_shape, variable_held};
ghost use Rattle.mn_domains.specs.Layouts.{AddsShape, AreShapesOf};

use super::shape::Shape;
use mn_model::{Decl, Domain, Instance, Kind, SPAN, VARIABLES};
use std::alloc::{AllocError, Global};

/// The shapes of the variables so far, and what they stand on.
#[derive(Drop)]
pub struct Layout {
    pub shapes: Vec<Shape>,
    /// The declared values of the SPARSEBOUND variables.
    pub listed: Vec<i64>,
    /// Where the last of these listings begins. Variables of one declaration share theirs.
    last: usize,
    /// How many bits the BOOL and DISCRETE variables have.
    pub bits: usize,
}

/// Whether these are the values of the domain.
fn is_listing(values: &[i64], domain: &Domain) -> bool
    ensures { result ≡ true → values.now ≡ domain.now }
{
    if values.len() as u64 != domain.size() {
        return false;
    }
    for (i, value) in values.iter().enumerate() {
        if *value != domain.nth(i as u64) {
            return false;
        }
    }
    true
}

/// Adds the values of the domain to the listed ones.
fn list(listed: &mut Vec<i64>, domain: &Domain) -> Result<(), AllocError>
    ensures { IfOk result (λ _. listed.new.items ≡ listed.old.items ++ domain.now) }
{
    for i in 0..domain.size() {
        listed.push(domain.nth(i))?;
    }
    Ok(())
}

impl Layout {
    ghost use Rattle.mn_domains.specs.Laid.{IsLaid, laid};

    /// No variables.
    pub fn new(alloc: Global) -> Layout
        ensures { AreShapesOf result.listed.items result.shapes.items result.bits [] }
    {
        Layout {
            shapes: Vec::new(alloc),
            listed: Vec::new(alloc),
            last: 0,
            bits: 0,
        }
    }

    /// The listing of a SPARSEBOUND declaration. It is the last one where that has the same values.
    fn listing(&mut self, domain: &Domain) -> Result<Shape, AllocError>
        requires domain { IsDomain domain.now }
        requires few { length domain.now ≤ SPAN }
        ensures shape { IfOk result (λ shape. AddsShape self.old.listed.items self.new.listed.items self.old.bits self.new.bits (record { declared = domain.now; bounded = true }) shape) }
        ensures plain { IfOk result (λ shape. IsTrue (is_bounded_shape shape)) }
        ensures shapes { self.new.shapes.items ≡ self.old.shapes.items }
    {
        let to = self.listed.len();
        if self.last < to && is_listing(&self.listed[self.last..], domain) {
            return Ok(Shape::Listed(self.last, to));
        }
        list(&mut self.listed, domain)?;
        self.last = to;
        Ok(Shape::Listed(to, self.listed.len()))
    }

    /// The bits of a BOOL or DISCRETE variable.
    fn row(&mut self, domain: &Domain) -> Shape
        requires domain { IsDomain domain.now }
        requires suits { SuitsKind Kind.Discrete domain.now }
        requires few { self.old.bits ≤ 2 ^ 40 }
        ensures shape { AddsShape self.old.listed.items self.new.listed.items self.old.bits self.new.bits (record { declared = domain.now; bounded = false }) result }
        ensures shapes { self.new.shapes.items ≡ self.old.shapes.items }
    {
        let at = self.bits;
        self.bits += domain.size() as usize;
        Shape::Bits(domain.lo(), domain.hi(), at)
    }

    /// Adds BOOL or DISCRETE variables, each with bits of its own.
    fn add_rows(&mut self, domain: &Domain, count: usize) -> Result<(), AllocError>
        requires domain { IsDomain domain.now }
        requires suits { SuitsKind Kind.Discrete domain.now }
        requires before { IsLaid self.old (laid self.old) }
        requires few { length self.old.shapes.items + count ≤ VARIABLES }
        ensures { OnOk result (IsLaid self.new (laid self.old ++ replicate count (record { declared = domain.now; bounded = false }))) }
    {
        for _ in 0..count {
            let shape = self.row(domain);
            self.shapes.push(shape)?;
        }
        Ok(())
    }

    /// Adds variables that have no bits, all of one shape.
    fn add_alike(&mut self, shape: Shape, count: usize) -> Result<(), AllocError>
        requires shape { IsShape self.old.listed.items self.old.bits shape }
        requires plain { IsTrue (is_bounded_shape shape) }
        requires before { IsLaid self.old (laid self.old) }
        requires few { length self.old.shapes.items + count ≤ VARIABLES }
        ensures { OnOk result (IsLaid self.new (laid self.old ++ replicate count (variable_held self.old.listed.items shape))) }
    {
        self.shapes.resize(self.shapes.len() + count, shape)?;
        Ok(())
    }

    /// Adds the variables of a declaration.
    fn add(&mut self, decl: &Decl, count: usize) -> Result<(), AllocError>
        requires lawful { IsLawfulDecl decl.now }
        requires before { IsLaid self.old (laid self.old) }
        requires few { length self.old.shapes.items + count ≤ VARIABLES }
        ensures { OnOk result (IsLaid self.new (laid self.old ++ replicate count (variable_of decl.now))) }
    {
        let domain = &decl.domain;
        match decl.kind {
            Kind::Bounded => self.add_alike(Shape::Stretch(domain.lo(), domain.hi()), count),
            Kind::Sparse => {
                let shape = self.listing(domain)?;
                self.add_alike(shape, count)
            }
            Kind::Binary | Kind::Discrete => self.add_rows(domain, count),
        }
    }
}

/// How many variables the first `k` declarations have.
fn vars_before(inst: &Instance, k: usize) -> u32
    requires { k ≤ length inst.now.decls }
    ensures { result ≡ variable_count (take k inst.now.decls) }
{
    inst.lawful();
    let decls = inst.decls();
    if k < decls.len() {
        decls[k].first.number()
    } else {
        inst.vars()
    }
}

/// The layout of an instance's variables.
pub fn layout_of(alloc: Global, inst: &Instance) -> Result<Layout, AllocError>
    ensures shapes { IfOk result (λ l. AreShapesOf l.listed.items l.shapes.items l.bits (declared_variables inst.now.decls)) }
    ensures few { length (declared_variables inst.now.decls) ≤ VARIABLES }
{
    inst.lawful();
    let mut layout = Layout::new(alloc);
    for (k, decl) in inst.decls().iter().enumerate() {
        let count = vars_before(inst, k + 1) - decl.first.number();
        layout.add(decl, count as usize)?;
    }
    Ok(layout)
}

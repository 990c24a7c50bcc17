//! The context in which propagators work.
ghost use Rattle.std.specs.Prelude.{◌≡◌, ◌↔◌, ◌⊎◌, ℤ, IfOk, IsTrue, OnErr, OnOk, false, int_le, not};
ghost use Rattle.std.specs.Ordering.{int_eq};
ghost use Rattle.mn_boxes.specs.Boxes.{declared_variables};
ghost use Rattle.mn_domains.specs.Changes.{is_not};
ghost use Rattle.mn_domains.specs.Sets.{AreBoxes};
ghost use Rattle.mn_boxes.specs.Places.{IsPlaceEnd, PlaceHas};
ghost use Rattle.mn_boxes.specs.Values.{IsAsWide, IsCovered, members};
ghost use Rattle.mn_model.specs.Lawful.{IsLawfulTerm};
ghost use Rattle.mn_prop.specs.Contexts.{IsAnswer, IsAnswerIf, IsTurned};

use mn_boxes::{Moved, ValueSet};
use mn_domains::{Doms, Emptied};
use mn_model::{Instance, Term, VarId};
use std::alloc::AllocError;
use std::marker::Model;

/// No value would stay.
#[derive(Clone, Copy, Debug, PartialEq, Eq)]
pub struct Fail;

/// The sets that propagators narrow, by the places of their constraints. Contracts see the sets, and the mark.
#[derive(Drop)]
pub struct Ctx {
    doms: Doms,
    /// Whether a value went since `rest`.
    moved: bool,
}

impl Model for Ctx {
    ghost use Rattle.mn_prop.specs.Contexts.{AreValued, Context};

    ghost Value = { Context };

    ghost view = { λ c. record { doms = c.doms; moved = c.moved } };

    ghost invariant = { λ c. AreValued c.doms.vars };
}

// The value of a variable that is `a` at the place of one less it. No value of a model is lost where this is too large.
fn turned(a: i64) -> i64
    ensures { IsTurned a result }
{
    1i64.saturating_sub(a)
}

// What is answered of a change of a variable's set, after which the sets are a box. It is noted if a value went.
fn answer(change: Result<Moved, Emptied>, doms: &Doms, noted: &mut bool) -> Result<(), Fail>
    ensures boxes { AreBoxes doms.now }
    ensures answer { IsAnswer change noted.old noted.new result }
{
    doms.lawful();
    match change {
        Ok(moved) => {
            if moved.any {
                *noted = true;
            }
            Ok(())
        }
        Err(Emptied) => Err(Fail),
    }
}

// What is answered of a constant.
fn answer_if(stays: bool) -> Result<(), Fail>
    ensures { IsAnswerIf stays result }
{
    if stays { Ok(()) } else { Err(Fail) }
}

impl Ctx {
    ghost use Rattle.mn_closure.specs.Closed.{IsAlone};
    ghost use Rattle.mn_closure.specs.Ready.{declared_sets};
    ghost use Rattle.mn_closure.specs.Supports.{IsOpen};
    ghost use Rattle.mn_domains.specs.Changes.{Restored, saved_now};
    ghost use Rattle.mn_prop.specs.Contexts.{AreValued, ChangedAt, IsGreatestAt, IsLeastAt, IsNamed, IsNextAt, MayGoAt, SomePasses, box_of, place_hi, place_lo, vars_of};
    ghost use Rattle.mn_prop.specs.Sifting.{HasBits, IsSifted, bits_test};

    /// Takes the sets of the instance's variables.
    pub fn build(inst: &Instance, doms: Doms) -> Result<Ctx, AllocError>
        requires { doms.vars ≡ declared_variables inst.now.decls }
        ensures { IfOk result (λ c. c ≡ record { doms = doms; moved = false }) }
    {
        inst.lawful();
        Ok(Ctx { doms, moved: false })
    }

    /// What the sets keep: now and whenever they were saved they are a box, of values within the limits.
    pub fn lawful(&self)
        ensures boxes { AreBoxes self.now.doms }
        ensures valued { AreValued (vars_of self.now) }
    {
        self.doms.lawful();
    }

    /// The sets.
    pub fn doms(&self) -> &Doms
        ensures { result.now ≡ self.now.doms }
    {
        &self.doms
    }

    /// From here on it is noted whether a value goes.
    pub fn rest(&mut self)
        ensures { self.new ≡ record self.old { moved = false } }
    {
        self.moved = false;
    }

    /// Whether a value went since `rest`.
    pub fn moved(&self) -> bool
        ensures { result ≡ self.now.moved }
    {
        self.moved
    }

    /// The least value of the place.
    pub fn lo(&self, t: Term) -> i64
        requires { IsNamed (vars_of self.now) t }
        ensures is { result ≡ place_lo (box_of self.now) t }
        ensures least { IsLeastAt (box_of self.now) t result }
        ensures end { IsPlaceEnd (box_of self.now) t result }
    {
        self.doms.lawful();
        match t {
            Term::Var(v) => self.doms.lo(v),
            Term::Const(k) => k,
            Term::Not(v) => 1 - self.doms.hi(v),
        }
    }

    /// The greatest value of the place.
    pub fn hi(&self, t: Term) -> i64
        requires { IsNamed (vars_of self.now) t }
        ensures is { result ≡ place_hi (box_of self.now) t }
        ensures greatest { IsGreatestAt (box_of self.now) t result }
        ensures end { IsPlaceEnd (box_of self.now) t result }
    {
        self.doms.lawful();
        match t {
            Term::Var(v) => self.doms.hi(v),
            Term::Const(k) => k,
            Term::Not(v) => 1 - self.doms.lo(v),
        }
    }

    /// Whether `a` is a value of the place.
    pub fn has(&self, t: Term, a: i64) -> bool
        requires { IsNamed (vars_of self.now) t }
        ensures { IsTrue result ↔ PlaceHas (box_of self.now) t a }
    {
        self.doms.lawful();
        match t {
            Term::Var(v) => self.doms.has(v, a),
            Term::Const(k) => k == a,
            Term::Not(v) => self.doms.has(v, turned(a)),
        }
    }

    /// Whether the place has one value alone.
    pub fn is_single(&self, t: Term) -> bool
        requires { IsNamed (vars_of self.now) t }
        ensures alone { IsTrue result ↔ IsAlone (box_of self.now) t (place_lo (box_of self.now) t) }
        ensures two { result ≡ false → IsOpen (box_of self.now) t }
    {
        self.lo(t) == self.hi(t)
    }

    /// The least value of the place that is greater than `a`.
    pub fn next(&self, t: Term, a: i64) -> Option<i64>
        requires { IsNamed (vars_of self.now) t }
        ensures { IsNextAt (box_of self.now) t a result }
    {
        self.doms.lawful();
        match t {
            Term::Var(v) => self.doms.next(v, a),
            Term::Const(k) => { if a < k { Some(k) } else { None } }
            Term::Not(v) => self.next_turned(v, a),
        }
    }

    // The same of one less a variable. Its values are tried one by one, since a 0/1 variable has two of them at most.
    fn next_turned(&self, v: VarId, a: i64) -> Option<i64>
        requires { IsNamed (vars_of self.now) (Term.Not v) }
        ensures { IsNextAt (box_of self.now) (Term.Not v) a result }
    {
        let lo = self.lo(Term::Not(v));
        let hi = self.hi(Term::Not(v));
        if hi <= a {
            return None;
        }
        if a < lo {
            return Some(lo);
        }
        let mut b = a + 1;
        while !self.has(Term::Not(v), b) {
            b += 1;
        }
        Some(b)
    }

    /// Whether `a` alone may be taken out of the place.
    pub fn may_remove(&self, t: Term, a: i64) -> bool
        requires { IsNamed (vars_of self.now) t }
        ensures { IsTrue result ↔ MayGoAt (vars_of self.now) t (box_of self.now) a }
    {
        self.doms.lawful();
        match t {
            Term::Var(v) => self.doms.may_remove(v, a),
            Term::Const(_) => true,
            Term::Not(v) => self.doms.may_remove(v, turned(a)),
        }
    }

    /// Keeps the values that are at least `a`.
    pub fn set_lo(&mut self, t: Term, a: i64) -> Result<(), Fail>
        requires { IsNamed (vars_of self.old) t }
        ensures { ChangedAt (λ x. int_le a x) t self.old self.new result }
    {
        self.doms.lawful();
        match t {
            Term::Var(v) => answer(self.doms.set_lo(v, a), &self.doms, &mut self.moved),
            Term::Const(k) => answer_if(a <= k),
            Term::Not(v) => answer(self.doms.set_hi(v, turned(a)), &self.doms, &mut self.moved),
        }
    }

    /// Keeps the values that are at most `a`.
    pub fn set_hi(&mut self, t: Term, a: i64) -> Result<(), Fail>
        requires { IsNamed (vars_of self.old) t }
        ensures { ChangedAt (λ x. int_le x a) t self.old self.new result }
    {
        self.doms.lawful();
        match t {
            Term::Var(v) => answer(self.doms.set_hi(v, a), &self.doms, &mut self.moved),
            Term::Const(k) => answer_if(k <= a),
            Term::Not(v) => answer(self.doms.set_lo(v, turned(a)), &self.doms, &mut self.moved),
        }
    }

    /// Keeps `a` alone.
    pub fn assign(&mut self, t: Term, a: i64) -> Result<(), Fail>
        requires { IsNamed (vars_of self.old) t }
        ensures { ChangedAt (λ x. int_eq x a) t self.old self.new result }
    {
        self.doms.lawful();
        match t {
            Term::Var(v) => answer(self.doms.assign(v, a), &self.doms, &mut self.moved),
            Term::Const(k) => answer_if(k == a),
            Term::Not(v) => answer(self.doms.assign(v, turned(a)), &self.doms, &mut self.moved),
        }
    }

    /// Keeps the values other than `a`.
    pub fn remove(&mut self, t: Term, a: i64) -> Result<(), Fail>
        requires named { IsNamed (vars_of self.old) t }
        requires may { MayGoAt (vars_of self.old) t (box_of self.old) a }
        ensures { ChangedAt (is_not a) t self.old self.new result }
    {
        self.doms.lawful();
        match t {
            Term::Var(v) => answer(self.doms.remove(v, a), &self.doms, &mut self.moved),
            Term::Const(k) => answer_if(k != a),
            Term::Not(v) => answer(self.doms.remove(v, turned(a)), &self.doms, &mut self.moved),
        }
    }

    /// Whether a value of the place is in the set.
    pub fn meets(&self, t: Term, values: &ValueSet) -> bool
        requires { IsLawfulTerm (declared_sets (vars_of self.now)) t }
        ensures { IsTrue result ↔ SomePasses (members values.now) t (box_of self.now) }
    {
        self.doms.lawful();
        match t {
            Term::Var(v) => self.doms.meets(v, values),
            Term::Const(k) => values.has(k),
            Term::Not(_) => self.has_bit_in(t, values, 0) || self.has_bit_in(t, values, 1),
        }
    }

    // Whether the value is one of the place and of the set.
    fn has_bit_in(&self, t: Term, values: &ValueSet, bit: i64) -> bool
        requires { IsNamed (vars_of self.now) t }
        ensures { IsTrue result ↔ (PlaceHas (box_of self.now) t bit × IsTrue (members values.now bit)) }
    {
        self.has(t, bit) && values.has(bit)
    }

    /// Puts the values of the place into the set.
    pub fn gather(&self, t: Term, into: &mut ValueSet)
        requires lawful { IsLawfulTerm (declared_sets (vars_of self.now)) t }
        requires covered { (a : ℤ) → PlaceHas (box_of self.now) t a → IsCovered into.old a }
        ensures wide { IsAsWide into.old into.new }
        ensures members { (a : ℤ) → IsTrue (members into.new a) ↔ (IsTrue (members into.old a) ⊎ PlaceHas (box_of self.now) t a) }
    {
        self.doms.lawful();
        match t {
            Term::Var(v) => self.doms.gather(v, into),
            Term::Const(k) => into.insert(k),
            Term::Not(_) => self.gather_bits(t, into),
        }
    }

    // The same of one less a variable, which is 0 or 1.
    fn gather_bits(&self, t: Term, into: &mut ValueSet)
        requires named { IsNamed (vars_of self.now) t }
        requires bits { HasBits t (box_of self.now) }
        requires covered { (a : ℤ) → PlaceHas (box_of self.now) t a → IsCovered into.old a }
        ensures wide { IsAsWide into.old into.new }
        ensures members { (a : ℤ) → IsTrue (members into.new a) ↔ (IsTrue (members into.old a) ⊎ PlaceHas (box_of self.now) t a) }
    {
        if self.has(t, 0) {
            into.insert(0);
        }
        if self.has(t, 1) {
            into.insert(1);
        }
    }

    /// Keeps the values of the set. Where values go at the ends alone, those from the least to the greatest of them.
    pub fn keep(&mut self, t: Term, values: &ValueSet) -> Result<(), Fail>
        requires { IsLawfulTerm (declared_sets (vars_of self.old)) t }
        ensures { IsSifted (members values.now) t self.old self.new result }
    {
        self.doms.lawful();
        match t {
            Term::Var(v) => answer(self.doms.keep(v, values), &self.doms, &mut self.moved),
            Term::Const(k) => answer_if(values.has(k)),
            Term::Not(_) => self.keep_bits(t, values.has(0), values.has(1)),
        }
    }

    /// Takes the values of the set out. Where values go at the ends alone, as far as the first that isn't in it and from the
    /// last.
    pub fn exclude(&mut self, t: Term, values: &ValueSet) -> Result<(), Fail>
        requires { IsLawfulTerm (declared_sets (vars_of self.old)) t }
        ensures { IsSifted (λ a. not (members values.now a)) t self.old self.new result }
    {
        self.doms.lawful();
        match t {
            Term::Var(v) => answer(self.doms.exclude(v, values), &self.doms, &mut self.moved),
            Term::Const(k) => answer_if(!values.has(k)),
            Term::Not(_) => self.keep_bits(t, !values.has(0), !values.has(1)),
        }
    }

    // Keeps 0 and 1, or one of them, at a place that has no other values.
    fn keep_bits(&mut self, t: Term, zero: bool, one: bool) -> Result<(), Fail>
        requires named { IsNamed (vars_of self.old) t }
        requires bits { HasBits t (box_of self.old) }
        ensures { IsSifted (bits_test zero one) t self.old self.new result }
    {
        match (zero, one) {
            (true, true) => self.set_lo(t, 0),
            (true, false) => self.set_hi(t, 0),
            (false, true) => self.set_lo(t, 1),
            (false, false) => Err(Fail),
        }
    }

    /// Keeps a copy of the state.
    pub fn save(&mut self) -> Result<(), AllocError>
        ensures ok { OnOk result (self.new ≡ record self.old { doms = saved_now self.old.doms }) }
        ensures err { OnErr result (self.new ≡ self.old) }
    {
        self.doms.save()
    }

    /// Goes back to the state that was saved last. False exactly where none is saved.
    pub fn restore(&mut self) -> bool
        ensures restored { Restored self.old.doms self.new.doms result }
        ensures moved { self.new.moved ≡ self.old.moved }
    {
        self.doms.restore()
    }
}

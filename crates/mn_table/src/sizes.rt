//! How many values places have, and how many choices.
ghost use Rattle.std.specs.Prelude.{◌≡◌, ◌-◌, ◌*◌, ◌^◌, ◌<◌, min, true};
ghost use Rattle.std.specs.List.{AllByRecursion};
ghost use Rattle.mn_prop.specs.Contexts.{IsNamed, box_of, vars_of};
ghost use Rattle.mn_table.specs.Choosing.{choice_count, place_size};

use mn_model::Term;
use mn_prop::Ctx;

/// How many values the place has.
pub(crate) fn size(c: &Ctx, t: Term) -> u64
    requires { IsNamed (vars_of c.now) t }
    ensures { result ≡ place_size (box_of c.now) t }
{
    match t {
        Term::Var(v) => c.doms().size(v),
        Term::Const(_) => 1,
        Term::Not(v) => c.doms().size(v),
    }
}

/// How many choices take one value from each place, as far as numbers go.
pub(crate) fn choices(c: &Ctx, v: &[Term]) -> u128
    requires { AllByRecursion (IsNamed (vars_of c.now)) v.now }
    ensures { result ≡ min (choice_count (box_of c.now) v.now) (2 ^ 128 - 1) }
{
    let mut many: u128 = 1;
    for t in v {
        many = many.saturating_mul(size(c, *t) as u128);
    }
    many
}

/// Whether so many tuples are too few for any value: at each place they are fewer than the choices of the others.
pub(crate) fn are_few(c: &Ctx, v: &[Term], tuples: u64) -> bool
    requires { AllByRecursion (IsNamed (vars_of c.now)) v.now }
    ensures { result ≡ true → AllByRecursion (λ t. tuples * place_size (box_of c.now) t < choice_count (box_of c.now) v.now) v.now }
{
    let many = choices(c, v);
    for t in v {
        if many <= tuples as u128 * size(c, *t) as u128 {
            return false;
        }
    }
    true
}

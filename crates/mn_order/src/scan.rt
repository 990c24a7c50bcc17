//! One pass over the sizes, for each of the four choices.
ghost use Rattle.std.specs.Prelude.{◌≡◌};
ghost use Rattle.mn_order.specs.Choose.{AreSizes, beats, choose};
ghost use Rattle.mn_order.specs.Better.{better_of};

use crate::choice::Choice;

/// A place whose set has more than one value.
#[derive(Clone, Copy, Debug, PartialEq, Eq)]
pub struct Candidate {
    /// The place in the lists of sizes, counted from 0.
    pub place: usize,
    /// How many values its set has now.
    pub size: u64,
    /// How many values were declared.
    pub whole: u64,
}

fn beats(choice: Choice, p: &Candidate, q: &Candidate) -> bool
    ensures { result ≡ beats choice p.now q.now }
{
    match choice {
        Choice::Fixed => false,
        Choice::Smallest => p.size < q.size,
        Choice::Largest => q.size < p.size,
        Choice::Ratio => {
            u128::from(p.size) * u128::from(q.whole) < u128::from(q.size) * u128::from(p.whole)
        }
    }
}

/// The better of the best so far and the next, which counts where it has more than one value.
fn better(choice: Choice, best: Option<Candidate>, next: Candidate) -> Option<Candidate>
    ensures { result ≡ better_of choice best next }
{
    match best {
        _ if next.size == 1 => best,
        Some(first) if !beats(choice, &next, &first) => best,
        _ => Some(next),
    }
}

/// The place that a choice names, in one pass over the sizes.
fn chosen(choice: Choice, now: &[u64], declared: &[u64]) -> Option<usize>
    requires { AreSizes now.now declared.now }
    ensures { result ≡ choose choice now.now declared.now }
{
    let mut best = None;
    for i in 0..now.len() {
        let next = Candidate {
            place: i,
            size: now[i],
            whole: declared[i],
        };
        best = better(choice, best, next);
    }
    best.map(|candidate| candidate.place)
}

/// The first place whose set has more than one value.
pub fn fixed(now: &[u64], _declared: &[u64]) -> Option<usize>
    requires { AreSizes now.now _declared.now }
    ensures { result ≡ choose Choice.Fixed now.now _declared.now }
{
    now.iter().position(|size| *size != 1)
}

/// The place with the smallest set of more than one value, and of several the first.
pub fn smallest(now: &[u64], declared: &[u64]) -> Option<usize>
    requires { AreSizes now.now declared.now }
    ensures { result ≡ choose Choice.Smallest now.now declared.now }
{
    chosen(Choice::Smallest, now, declared)
}

/// The place with the largest set, where that has more than one value, and of several the first.
pub fn largest(now: &[u64], declared: &[u64]) -> Option<usize>
    requires { AreSizes now.now declared.now }
    ensures { result ≡ choose Choice.Largest now.now declared.now }
{
    chosen(Choice::Largest, now, declared)
}

/// The place with the least part of its declared values left, among the sets of more than one value, and of several the
/// first.
pub fn ratio(now: &[u64], declared: &[u64]) -> Option<usize>
    requires { AreSizes now.now declared.now }
    ensures { result ≡ choose Choice.Ratio now.now declared.now }
{
    chosen(Choice::Ratio, now, declared)
}

//! An entry of a list: a reference, one less a variable, or a number.
ghost use Rattle.std.specs.Prelude.{◌≡◌, ◌<◌, drop, Some, None};
ghost use Rattle.mn_grammar.specs.Gives.{Gives};
ghost use Rattle.mn_grammar.specs.Kinds.{rank};
ghost use Rattle.mn_grammar.specs.Reading.{go_on, judged};
ghost use Rattle.mn_model.specs.Name.{IsName};
ghost use Rattle.mn_references.specs.Aims.{aim_seen};
ghost use Rattle.mn_references.specs.Lookups.{found_seen};
ghost use Rattle.mn_references.specs.References.{at_name, lead, lead_of};
ghost use Rattle.mn_references.specs.Conditions.{lesser};
ghost use Rattle.mn_references.specs.Entries.{at_number};
ghost use Rattle.mn_references.specs.Placing.{place_seen, placed_seen};
ghost use Rattle.mn_cursor.specs.Progress.{rest, Moves};
ghost use Rattle.mn_references.specs.Referring.{behind_name, entry_at};

use crate::aims::Aimed;
use crate::lookup::look_up;
use crate::references::{Reference, behind_name, name_kind, reference_at};
use crate::scan::{Scan, Start};
use mn_grammar::{Kind, Limit, Stop};

/// What is wanted of an entry: what its first token breaks, whatever it is; whether a number is 0 or 1; and what is
/// wanted of a reference.
#[derive(Clone, Copy, Debug)]
pub struct Placing {
    pub first: Option<Kind>,
    pub bits: bool,
    pub aim: Aimed,
}

/// What an entry stands for.
#[derive(Debug, Drop)]
pub enum Placed<'c> {
    Named(Reference<'c>),
    Constant(i64),
    /// One less a variable.
    Denied(Reference<'c>),
}

fn rank(kind: Kind) -> u8
    ensures { result ≡ rank kind }
{
    match kind {
        Kind::Lex => 0,
        Kind::NumberRange => 1,
        Kind::Unsupported => 2,
        Kind::Syntax => 3,
        Kind::Again => 4,
        Kind::Name => 5,
        Kind::EmptyDomain => 6,
        Kind::Limit(Limit::Variables) => 7,
        Kind::Limit(Limit::Constraints) => 8,
        Kind::Limit(Limit::Cells) => 9,
        Kind::Limit(Limit::Nesting) => 10,
        Kind::Limit(Limit::Span) => 11,
        Kind::Limit(Limit::Vector) => 12,
        Kind::Shape => 13,
    }
}

/// The kind that counts where two conditions stand at one token.
pub fn lesser(c: Option<Kind>, d: Option<Kind>) -> Option<Kind>
    ensures { result ≡ lesser c d }
{
    match (c, d) {
        (None, d) => d,
        (c, None) => c,
        (Some(j), Some(k)) => Some(if rank(k) < rank(j) { k } else { j }),
    }
}

// What a number breaks where a 0/1 term is wanted or not.
fn number_kind(bits: bool, z: i64) -> Option<Kind>
    ensures { result ≡ at_number bits z }
{
    if bits && !(z == 0 || z == 1) {
        Some(Kind::Shape)
    } else {
        None
    }
}

// An entry that begins with a name.
fn named<'c>(scan: &mut Scan<'c, '_>, place: Placing, name: &[u8]) -> Result<Reference<'c>, Stop>
    requires there { 0 < scan.old.left }
    requires name { IsName name.now }
    ensures moves { Moves scan.old scan.new }
    ensures gives { Gives (λ r. (found_seen r, rest scan.new)) result (go_on (judged (lesser place.first (at_name (aim_seen scan.old.problem place.aim) (lead_of scan.old.problem name.now))) (tt {0}) (rest scan.old) (drop 1 (rest scan.old))) (λ u. behind_name (aim_seen scan.old.problem place.aim) (lead scan.old.problem name.now))) }
{
    let Some(lookup) = look_up(scan.inst(), name) else {
        scan.accept(lesser(place.first, Some(Kind::Name)))?;
        return Err(scan.refused(Kind::Name));
    };
    scan.accept(lesser(place.first, name_kind(scan.inst(), &lookup, place.aim)))?;
    behind_name(scan, &lookup, place.aim)
}

/// Reads an entry.
pub fn entry<'c>(scan: &mut Scan<'c, '_>, place: Placing) -> Result<Placed<'c>, Stop>
    ensures moves { Moves scan.old scan.new }
    ensures gives { Gives (λ v. (placed_seen v, rest scan.new)) result (entry_at scan.old.problem (place_seen scan.old.problem place) (rest scan.old)) }
{
    match scan.sees_start()? {
        Start::Name(name) => Ok(Placed::Named(named(scan, place, name)?)),
        Start::Number(z) => {
            scan.accept(lesser(place.first, number_kind(place.bits, z)))?;
            Ok(Placed::Constant(z))
        }
        Start::Bang => {
            scan.accept(place.first)?;
            Ok(Placed::Denied(reference_at(scan, Aimed::One(true))?))
        }
    }
}

//! VALORDER: a direction for each variable of the order.
ghost use Rattle.std.specs.Prelude.{◌≡◌, ◌<◌, [], length, None, IfOk};
ghost use Rattle.mn_grammar.specs.Gives.{Gives};
ghost use Rattle.mn_grammar.specs.Lists.{items_at, turn_at};
ghost use Rattle.mn_grammar.specs.Places.{when};
ghost use Rattle.mn_grammar.specs.Reading.{which_of};
ghost use Rattle.mn_grammar.specs.declared.Kind.TheVariants.{Shape};
ghost use Rattle.mn_grammar.specs.declared.site.Site.TheVariants.{Fixed};
ghost use Rattle.mn_lexer.specs.declared.marks.Mark.TheVariants.{CloseSquare};
ghost use Rattle.mn_cursor.specs.Looks.{Sees};
ghost use Rattle.mn_cursor.specs.Progress.{rest, Moves};
ghost use Rattle.mn_references.specs.Listing.{turn_of};
ghost use Rattle.mn_asking.specs.Search.{all_ways, values_ends, way_token};
ghost use Rattle.mn_asking.specs.Searching.{both, val_order_at, way_at, ways_at};

use mn_cursor::Seen;
use mn_grammar::{Kind, Site, Stop};
use mn_lexer::Mark;
use mn_model::Flags;
use mn_references::Scan;

// Whether `d` is at the place, and not `a`.
fn sees_way(scan: &Scan) -> Result<bool, Stop>
    ensures sees { Sees Fixed (which_of way_token both) (λ d. d) (rest scan.now) result }
    ensures there { IfOk result (λ _. 0 < scan.now.left) }
{
    if let Some(Seen::Word(bytes)) = scan.look() {
        if bytes == b"d".as_slice() {
            return Ok(true);
        }
        if bytes == b"a".as_slice() {
            return Ok(false);
        }
    }
    Err(scan.unwanted(Site::Fixed))
}

// What is broken where a test holds.
fn shape_where(broken: bool) -> Option<Kind>
    ensures { result ≡ when broken Shape }
{
    if broken { Some(Kind::Shape) } else { None }
}

// Reads `a` or `d` after so many others. Answers whether it is `d`.
#[tactic(auto, using(mn_cursor::proofs::Looking::unseen_stops, mn_cursor::proofs::Looking::seen_stops, mn_cursor::proofs::Looking::seen_reads), unfolding(crate::specs::Searching::way_at, mn_grammar::specs::Reading::one_of))]
fn way(scan: &mut Scan, wanted: usize, down: &Flags) -> Result<bool, Stop>
    ensures moves { Moves scan.old scan.new }
    ensures gives { Gives (λ d. (d, rest scan.new)) result (way_at wanted down.now (rest scan.old)) }
{
    let way = sees_way(scan)?;
    scan.accept(shape_where(wanted <= down.len()))?;
    Ok(way)
}

// Reads one of the directions and the mark after it. Answers whether the list goes on.
fn turn(scan: &mut Scan, wanted: usize, down: &mut Flags) -> Result<bool, Stop>
    ensures moves { Moves scan.old scan.new }
    ensures gives { Gives (λ more. (turn_of down.new more, rest scan.new)) result (turn_at CloseSquare (values_ends wanted) all_ways (way_at wanted) down.old (rest scan.old)) }
{
    let way = way(scan, wanted, down)?;
    down.push(way)?;
    let count = down.len();
    scan.ends(
        Mark::CloseSquare,
        shape_where(wanted <= count),
        shape_where(count < wanted),
    )
}

// Reads one direction or more, and the `]`.
fn directions(scan: &mut Scan, wanted: usize) -> Result<Flags, Stop>
    ensures moves { Moves scan.old scan.new }
    ensures gives { Gives (λ down. (down, rest scan.new)) result (items_at CloseSquare (values_ends wanted) all_ways (way_at wanted) [] (rest scan.old)) }
{
    let mut down = Flags::new(scan.alloc());
    loop {
        let more = turn(scan, wanted, &mut down)?;
        if !more {
            return Ok(down);
        }
    }
}

// Reads the directions after the `[`.
#[tactic(auto, using(mn_references::proofs::ListTurns::shut_stops, mn_references::proofs::ListTurns::shut_reads, mn_references::proofs::ListTurns::opened), unfolding(crate::specs::Searching::ways_at))]
fn ways(scan: &mut Scan, wanted: usize) -> Result<Flags, Stop>
    ensures moves { Moves scan.old scan.new }
    ensures gives { Gives (λ down. (down, rest scan.new)) result (ways_at wanted (rest scan.old)) }
{
    if scan.is_mark(Mark::CloseSquare) {
        scan.mark(Mark::CloseSquare, shape_where(0 < wanted))?;
        return Ok(Flags::new(scan.alloc()));
    }
    directions(scan, wanted)
}

/// Reads what stands after VALORDER: a direction for each of so many variables.
pub fn val_order(scan: &mut Scan, wanted: usize) -> Result<Flags, Stop>
    ensures moves { Moves scan.old scan.new }
    ensures gives { Gives (λ down. (down, rest scan.new)) result (val_order_at wanted (rest scan.old)) }
{
    scan.mark(Mark::OpenSquare, None)?;
    ways(scan, wanted)
}

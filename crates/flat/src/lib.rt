// Flat sections: the check of a flat grid, the segments of its triangles, and its chains.
#![tactic(auto)]

ghost use Rattle.std.specs.Prelude.{◌≡◌, ◌*◌, ◌≤◌, length};
ghost use Rattle.grid.specs.Grid.{crossings};
ghost use Rattle.flat.specs.Lent.{lent};
ghost use Rattle.flat.specs.Accepted.{Accepted};
ghost use Rattle.flat.specs.Numbers.{traced_numbers};
ghost use Rattle.flat.specs.Done.{Done};
ghost use Rattle.flat.specs.work.Work.{SidesKnown, TracedIn};

use answer::{Refusal, Row};
use grid::MOST_CROSSINGS;
use walks::Steps;

mod guides;
mod join;
mod rows;
mod steps;
mod triangles;
mod walks;
mod words;

pub use join::flat_join;
pub use rows::check;

// The most triangles that a flat grid may have, and so many edges they have at most.
pub const MOST_FLAT_TRIANGLES: usize = 2048;

pub const MOST_SIDES: usize = 3 * MOST_FLAT_TRIANGLES;

// Two ports to an edge, a mark to a crossing, two darts to a crossing, as many as the words at most.
const MOST_PORTS: usize = 2 * MOST_SIDES;

const CROSSING_MARKS: usize = MOST_CROSSINGS as usize;

const MOST_DARTS: usize = 2 * CROSSING_MARKS;

// The crossings for which small tables have room.
const FEW_CROSSINGS: usize = 4096;

const FEW_DARTS: usize = 2 * FEW_CROSSINGS;

// A flat grid's lists, as lent: three nodes to a triangle, two to an edge, and a count to an edge.
#[derive(Clone, Copy)]
pub struct FlatGrid<'a> {
    pub triangles: &'a [u16],
    pub edges: &'a [u16],
    pub counts: &'a [u16],
}

// Row 24 for a flat grid that is accepted, or the words. They are made in a list first, since it is not known before how many they are; next and that list
// have room for two entries to a crossing. Keeps them on the stack, and its parts 64 KB.
fn trace_in<const ROOM: usize>(
    grid: FlatGrid,
    sides: &[usize],
    n: usize,
    area: &mut [u32],
) -> Result<u32, Refusal>
    requires accepted { Accepted (lent grid) }
    requires sides_known { SidesKnown (lent grid) sides.now }
    requires n_value { n ≡ crossings grid.counts.now }
    requires n_in_bounds { 2 * n ≤ ROOM }
    requires room_small { ROOM ≤ 131070 }
    ensures { TracedIn (lent grid.entry) area.old area.new (traced_numbers result) }
{
    let mut next = [0u32; ROOM];
    let mut words = [0u16; ROOM];
    let places = 3 * (grid.triangles.len() / 3);
    steps::put_steps(grid.counts, &sides[..places], 2 * n, &mut next);
    let table = Steps {
        next: &next[..2 * n],
    };
    let m = table.put_words(&mut words);
    if area.len() < m {
        return Err(Row::ChainArea.at(m));
    }
    words::copy_words(&words[..m], area);
    Ok(m as u32)
}

// The same with small tables for few crossings, which saves the time to clear large ones. Keeps 768 KB on the stack.
fn trace(grid: FlatGrid, sides: &[usize], n: usize, area: &mut [u32]) -> Result<u32, Refusal>
    requires accepted { Accepted (lent grid) }
    requires sides_known { SidesKnown (lent grid) sides.now }
    requires n_value { n ≡ crossings grid.counts.now }
    ensures { TracedIn (lent grid.entry) area.old area.new (traced_numbers result) }
{
    if n <= FEW_CROSSINGS {
        trace_in::<FEW_DARTS>(grid, sides, n, area)
    } else {
        trace_in::<MOST_DARTS>(grid, sides, n, area)
    }
}

// The chains call. Keeps 48 KB on the stack, besides what `trace` keeps.
pub fn chains(grid: FlatGrid, area: &mut [u32]) -> Result<u32, Refusal>
    ensures { Done (lent grid.entry) area.old area.new (traced_numbers result) }
{
    let mut sides = [0usize; MOST_SIDES];
    let n = rows::all_rows(grid, &mut sides)?;
    trace(grid, &sides, n as usize, area)
}

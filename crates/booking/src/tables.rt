// The triangles of the loops of all cells of a grid's tables, counted. A cell is walked for it only where it has no entry in the table of common cells and
// cannot be booked.
ghost use Rattle.std.specs.Prelude.{◌≡◌, ◌≤◌, length};
ghost use Rattle.counting.specs.Lists.{total, pre};
ghost use Rattle.cell.specs.Level.{by_edge};
ghost use Rattle.cell.specs.work.Table.{most_triangles};
ghost use Rattle.cell.specs.work.Tables.{drawn_in, walked_in, triangles_all};
ghost use Rattle.booking.specs.work.Totals.{most_counts, crossings_at, AreTotals};

use super::fans_of;
use cases::ENTRIES;
use cell::Tables;

// How many crossings a cell with these counts has.
pub fn crossings_in(counts: [u16; 6]) -> usize
    ensures { (result ≡ pre (by_edge counts) 6) × (result ≤ most_counts) }
{
    counts[0] as usize
        + counts[1] as usize
        + counts[2] as usize
        + counts[3] as usize
        + counts[4] as usize
        + counts[5] as usize
}

// What the cells come to: the triangles of those that are in the table of common cells or are booked, and the crossings of the others.
#[derive(Clone, Copy)]
struct Totals {
    known: usize,
    crossings: usize,
}

// The common cells are tallied by entry: the number of cells times triangles.
fn totals_of(tables: Tables) -> Totals
    ensures { AreTotals tables.entry.counts.now tables.entry.sides.now (drawn_in tables.entry) result.known result.crossings }
{
    let n = cell::drawn(tables.cells);
    let mut tally = [0u16; ENTRIES];
    let mut booked: usize = 0;
    let mut crossings: usize = 0;
    for c in 0..n {
        let six = cell::counts_at(tables.counts, tables.sides, c);
        if let Some(e) = cases::find_entry(six) {
            tally[e] += 1;
            continue;
        }
        match fans_of(six) {
            Some(f) => booked += f.triangles as usize,
            None => crossings += crossings_in(six),
        }
    }
    let known = booked + cases::triangles_in(&tally);
    Totals { known, crossings }
}

// How many triangles the cells have that are neither in the table nor booked; they have so many crossings.
fn count_others(tables: Tables, crossings: usize) -> usize
    requires { crossings ≡ total (crossings_at tables.counts.now tables.sides.now) (drawn_in tables) 0 }
    ensures { (result ≡ total (walked_in tables.entry) (drawn_in tables.entry) 0) × (result ≤ most_triangles) }
{
    if crossings == 0 {
        return 0;
    }
    cell::count_walked(tables)
}

// How many triangles the loops of all cells of the tables have. About 178 KB of stack.
pub fn count_all(tables: Tables) -> usize
    ensures { (result ≡ length (triangles_all tables.entry)) × (result ≤ most_triangles) }
{
    let totals = totals_of(tables);
    totals.known + count_others(tables, totals.crossings)
}

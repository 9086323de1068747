// The common cells, those with six counts of 0, 1 or 2, from a table of all of them.
#![tactic(auto)]

ghost use Rattle.std.specs.Prelude.{◌≡◌, ◌<◌, IfSome};
ghost use Rattle.cell.specs.Level.{by_edge};
ghost use Rattle.cases.specs.claims.Cases.{entries};
ghost use Rattle.cases.specs.Answer.{case_numbers, case_answer};
ghost use Rattle.cases.specs.claims.Tally.{find_entry};
ghost use Rattle.cases.specs.work.Tally.{place_of};

use cell::DIGIT_LIMIT;

mod numbers;

pub use numbers::triangles_in;

// How many loops and how many triangles a common cell has.
#[derive(Clone, Copy)]
pub struct Case {
    pub loops: u32,
    pub triangles: u32,
}

// So many entries the table has.
pub const ENTRIES: usize = 729;

// An entry's number has the counts as its digits, to this base.
const BASE: usize = DIGIT_LIMIT as usize;

// The number of the entry of a cell with these counts, of the edges 01, 02, 03, 12, 13, 23: a cell with a count above 2 is outside the table.
pub fn find_entry(counts: [u16; 6]) -> Option<usize>
    ensures place { place_of result ≡ find_entry (by_edge counts) }
    ensures within { IfSome result (λ n. n < entries) }
{
    if !cell::is_common(counts) {
        return None;
    }
    let mut n: usize = 0;
    for count in &counts {
        n = BASE * n + *count as usize;
    }
    Some(n)
}

// The entry of a cell with these counts.
pub fn look_up(counts: [u16; 6]) -> Option<Case>
    ensures { case_numbers result ≡ case_answer (by_edge counts) }
{
    let n = find_entry(counts)?;
    let e = numbers::entry(n);
    Some(Case {
        loops: e[0] as u32,
        triangles: e[1] as u32,
    })
}

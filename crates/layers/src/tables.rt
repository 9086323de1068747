// The tables of a run of cells, from those of the whole grid.
ghost use Rattle.std.specs.Prelude.{◌≡◌, ◌+◌, ◌*◌, ◌-◌, ◌≤◌, eqb, leb, length};
ghost use Rattle.counting.specs.Pick.{pick};
ghost use Rattle.std.proofs.lemmas.List.Edits.{sets};
ghost use Rattle.counting.specs.Lists.{values};
ghost use Rattle.counting.specs.Stored.{filled};
ghost use Rattle.layers.specs.work.Work.{name_from, side_from, Moving, EdgesMarking, EdgesMarked, Adding, StartsSumming, StartsSummed, marked_start, Layable, Copied, Started};
ghost use Rattle.slots.specs.Limits.{most_cells};

use super::Span;
use grid::{MOST_EDGES, MOST_SLOTS};

// The name x counted from `base` on; j where it is lower.
fn from_base(base: usize, x: usize, j: usize) -> usize
    ensures { result ≡ pick (leb base x) (x - base) j }
{
    if x < base { j } else { x - base }
}

// The names of the n faces of the run that starts at the cell `from`.
fn write_names(names: &[u16], from: usize, n: usize, own: &mut [u16])
    requires { Moving (4 * from) n names.now own.old }
    ensures { own.new ≡ filled (name_from names.now from) n own.old }
{
    for j in 0..n {
        let x = names[4 * from + j] as usize;
        own[j] = from_base(4 * from, x, j) as u16;
    }
}

// The edges of its n sides, by their numbers in the whole.
fn write_sides(sides: &[u16], from: usize, n: usize, own: &mut [u16])
    requires { Moving (6 * from) n sides.now own.old }
    ensures { own.new ≡ filled (side_from sides.now from) n own.old }
{
    for j in 0..n {
        own[j] = sides[6 * from + j];
    }
}

// The places of the marks: one for each edge, then one for each block of edges.
const BLOCK: usize = 64;

pub(crate) const MARKS: usize = MOST_EDGES + MOST_EDGES / BLOCK;

// Marks these edges and their blocks with m.
fn mark(sides: &[u16], from: usize, n: usize, m: u16, used: &mut [u16])
    requires { EdgesMarking from n m sides.now used.old }
    ensures { EdgesMarked from n m sides.now used.old used.new }
{
    for j in 0..n {
        let e = sides[6 * from + j] as usize;
        used[e] = m;
        used[MOST_EDGES + e / BLOCK] = m;
    }
}

// The count of an edge that is marked with m, 0 of any other.
fn counted(mark: u16, m: u16, count: u16) -> u32
    ensures { (result ≡ pick (eqb mark m) count 0) × (result ≤ 65535) }
{
    if mark == m { count as u32 } else { 0 }
}

// The starts, at the edges from `at` up to `end`, of those that are marked with m; s is the sum before them. Answers the sum after them.
fn add_block(
    counts: &[u16],
    used: &[u16],
    m: u16,
    at: usize,
    end: usize,
    s: u32,
    starts: &mut [u32],
) -> u32
    requires { Adding counts.now used.now m at end s starts.old }
    ensures value { (result ≡ marked_start counts.now used.now m end) × (result ≤ 65535 * end) }
    ensures starts_after { starts.new ≡ sets starts.old at (values (λ i. marked_start counts.now used.now m (at + i)) (end - at)) }
{
    let mut sum = s;
    for e in at..end {
        starts[e] = sum;
        sum += counted(used[e], m, counts[e]);
    }
    sum
}

// The starts of the edges that are marked with m, among themselves. Blocks without such an edge are passed over.
fn write_starts(counts: &[u16], used: &[u16], m: u16, starts: &mut [u32])
    requires { StartsSumming counts.now used.now m starts.old }
    ensures { StartsSummed counts.now used.now m (length counts.now) starts.old starts.new }
{
    let n = counts.len();
    let mut s = 0;
    for b in 0..n.div_ceil(BLOCK) {
        if used[MOST_EDGES + b] == m {
            let end = (BLOCK * (b + 1)).min(n);
            s = add_block(counts, used, m, BLOCK * b, end, s, starts);
        }
    }
}

impl Span {
    // The names of the run's faces, and its sides, which keep the whole's edge numbers.
    pub(crate) fn copy(
        self,
        names: &[u16; MOST_SLOTS],
        sides: &[u16; MOST_EDGES],
        own_names: &mut [u16; MOST_SLOTS],
        own_sides: &mut [u16; MOST_EDGES],
    )
        requires { self.from + self.size ≤ most_cells }
        ensures { Copied names.now sides.now self.from self.size own_names.new own_sides.new }
    {
        write_names(names, self.from, 4 * self.size, own_names);
        write_sides(sides, self.from, 6 * self.size, own_sides);
    }

    // The starts of the run's edges. All marks are below the run's.
    pub(crate) fn start(
        self,
        counts: &[u16],
        sides: &[u16; MOST_EDGES],
        used: &mut [u16; MARKS],
        own_starts: &mut [u32; MOST_EDGES],
    )
        requires { Layable counts.now sides.now used.old self.from self.size self.mark }
        ensures { Started counts.now sides.now self.from self.size self.mark own_starts.new used.new }
    {
        mark(sides, self.from, 6 * self.size, self.mark, used);
        write_starts(counts, used, self.mark, own_starts);
    }
}

// Names put over: the words of a run's triangles in the names of the whole.
ghost use Rattle.std.specs.Prelude.{◌≡◌, ℕ, ◌+◌, ◌*◌, ◌≤◌, ◌<◌, length};
ghost use Rattle.std.proofs.lemmas.List.Edits.{sets};
ghost use Rattle.counting.specs.Lists.{values};
ghost use Rattle.cell.specs.Words.{word_count};
ghost use Rattle.slots.specs.Limits.{most_cells};
ghost use Rattle.layers.specs.work.Work.{Leading, CrossingsNumbered, most_numbers, crossing_over, face_over, cell_over, table_over, word_over, triangle_over, triangles_over};

use super::Span;
use cell::{NO_NAME, WORD_COUNT};
use grid::{MOST_CELLS, MOST_EDGES, MOST_SLOTS};
use split::{FIRST_CROSSING, FIRST_FACE};

// The numbers that crossings of a grid may have: inner ones start there.
pub(crate) const CROSSINGS: usize = FIRST_CROSSING as usize;

// The crossings of an edge that has n: those that the run numbers from `own` on are the whole's from `first` on.
fn number_edge(own: usize, first: usize, n: usize, over: &mut [u16])
    requires { (own + n ≤ length over.old) × (first + n ≤ most_numbers) }
    ensures { over.new ≡ sets over.old own (values (λ i. first + i) n) }
{
    for i in 0..n {
        over[own + i] = (first + i) as u16;
    }
}

impl Span {
    // The whole's numbers of the run's crossings. Edges of several cells are gone over again.
    pub(crate) fn number_sides(
        self,
        counts: &[u16],
        starts: &[u32],
        sides: &[u16; MOST_EDGES],
        own_starts: &[u32; MOST_EDGES],
        over: &mut [u16],
    )
        requires by_index { (f : ℕ → ℕ) × Leading f counts.now starts.now sides.now self.from (6 * self.size) own_starts.now }
        requires over_len { length over.old ≡ most_numbers }
        ensures { (f : ℕ → ℕ) → Leading f counts.now starts.now sides.now self.from (6 * self.size) own_starts.now → CrossingsNumbered f counts.now sides.now self.from (6 * self.size) own_starts.now over.new }
    {
        for j in 0..6 * self.size {
            let e = sides[6 * self.from + j] as usize;
            number_edge(
                own_starts[e] as usize,
                starts[e] as usize,
                counts[e] as usize,
                over,
            );
        }
    }
}

// A crossing, a face and word 0 of a run, whose first cell is `from`, in the names of the whole. Inner ones stay.
fn crossing_over(over: &[u16; CROSSINGS], g: u32) -> u32
    ensures { result ≡ crossing_over over.now g }
{
    if g < FIRST_CROSSING {
        over[g as usize] as u32
    } else {
        g
    }
}

fn face_over(names: &[u16; MOST_SLOTS], from: usize, f: u32) -> u32
    requires { from ≤ most_cells }
    ensures { result ≡ face_over names.now from f }
{
    if f < FIRST_FACE {
        names[(4 * from + f as usize) % MOST_SLOTS] as u32
    } else {
        f
    }
}

fn cell_over(from: usize, w: u32) -> u32
    requires { from ≤ most_cells }
    ensures { result ≡ cell_over from w }
{
    let c = w as usize;
    ((from + c % MOST_CELLS) % MOST_CELLS + c / MOST_CELLS * MOST_CELLS) as u32
}

// Word j of a triangle, where f is the word before it.
fn word_over(
    names: &[u16; MOST_SLOTS],
    over: &[u16; CROSSINGS],
    from: usize,
    j: usize,
    f: u32,
    w: u32,
) -> u32
    requires { from ≤ most_cells }
    ensures { result ≡ word_over (table_over names.now over.now from) j f w }
{
    if j == 0 {
        cell_over(from, w)
    } else if j < 5 {
        crossing_over(over, w)
    } else if j % 2 == 1 {
        face_over(names, from, w)
    } else if f == NO_NAME {
        w
    } else {
        crossing_over(over, w)
    }
}

// The words of the triangle that stand from index `at` on.
fn put_triangle(
    names: &[u16; MOST_SLOTS],
    over: &[u16; CROSSINGS],
    from: usize,
    area: &mut [u32],
    at: usize,
)
    requires from_le_most_cells { from ≤ most_cells }
    requires word_count_in_bounds { at + word_count ≤ length area.old }
    ensures { area.new ≡ sets area.old at (triangle_over (table_over names.now over.now from) area.old at) }
{
    let mut f = 0;
    for j in 0..WORD_COUNT {
        let w = area[at + j];
        area[at + j] = word_over(names, over, from, j, f, w);
        f = w;
    }
}

// The words of n triangles of the run whose first cell is `from`, which stand from index `at` on.
pub(crate) fn put_over(
    names: &[u16; MOST_SLOTS],
    over: &[u16; CROSSINGS],
    from: usize,
    area: &mut [u32],
    at: usize,
    n: usize,
)
    requires { (at + word_count * n ≤ length area.old) × (from ≤ most_cells) }
    ensures { area.new ≡ sets area.old at (triangles_over (table_over names.now over.now from) area.old at n) }
{
    for t in 0..n {
        put_triangle(names, over, from, area, at + WORD_COUNT * t);
    }
}

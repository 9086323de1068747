// A sub-cell of a split.
ghost use Rattle.std.specs.Prelude.{◌≡◌, [], ◌∷◌, ◌+◌, ◌*◌, ◌≤◌, ◌<◌, get_or};
ghost use Rattle.counting.specs.Lists.{values, pre};
ghost use Rattle.slots.specs.Slots.{position, slot_edge};
ghost use Rattle.cell.specs.Nodes.{joining};
ghost use Rattle.cell.specs.Of.{count_of};
ghost use Rattle.split.specs.Labels.{labelled};
ghost use Rattle.split.specs.work.Five.{arm_count, rest_count};
ghost use Rattle.split.specs.SubCell.{arm_start, rest_start, inner_name, sub};
ghost use Rattle.cell.specs.claims.Table.{short_limit};
ghost use Rattle.cell.specs.work.Limits.{start_limit};
ghost use Rattle.split.specs.Limits.{word_step};
ghost use Rattle.split.specs.work.Working.{nested_numbering, spoke_by};

use super::{Numbering, Spiral};
use cell::Cell;
use slots::{MOST_CELLS, high_end, low_end, lower_end, position, upper_end};

// The edge that joins two positions or labels.
// Stays: here and in `direct`, since it asks for two of four, and a public function asks nothing.
fn joining_of(a: u32, b: u32) -> u32
    requires { (a < 4) × (b < 4) × (a ≡ b → ⊥) }
    ensures { (result ≡ joining a b) × (result < 6) }
{
    let x = a.min(b);
    let y = a.max(b);
    match x {
        0 => y - 1,
        1 => y + 1,
        _ => 5,
    }
}

// The edge of the cell that is edge j of slot p.
fn slot_edge(p: usize, j: u32) -> usize
    requires { (p < 4) × (j < 3) }
    ensures { (result ≡ slot_edge p j) × (result < 6) }
{
    let a = position(p, lower_end(j) as usize);
    let b = position(p, upper_end(j) as usize);
    joining_of(a as u32, b as u32) as usize
}

impl Spiral {
    // The count of the new edge with the label l, and the inner crossings before it.
    pub(crate) fn spoke_count(self, l: u32) -> u32
        requires { l < 4 }
        ensures { result ≡ spoke_by self.larger self.smaller l }
    {
        match l {
            0 => 2 * self.smaller,
            1 => self.larger,
            2 => self.smaller,
            _ => self.larger.saturating_sub(self.smaller),
        }
    }

    fn spokes_before(self, l: u32) -> u32
        requires { l < 4 }
        ensures { (result ≡ pre (spoke_by self.larger self.smaller) l) × (result ≤ 262140) }
    {
        match l {
            0 => 0,
            1 => 2 * self.smaller,
            2 => 2 * self.smaller + self.larger,
            _ => 3 * self.smaller + self.larger,
        }
    }

    // The count of the new edge to position p.
    fn arm_count(self, p: usize) -> u16
        requires p_bound { p < 4 }
        ensures { result ≡ arm_count self.cell p }
    {
        self.spoke_count(self.label[p]) as u16
    }

    // The number of its first crossing, where the inner crossings start at b.
    fn arm_start(self, b: u32, p: usize) -> u32
        requires p_bound { (p < 4) × (b < start_limit) }
        ensures { result ≡ arm_start self.cell b p }
    {
        b + self.spokes_before(self.label[p])
    }

    // What remains of edge e: how many crossings, and the number of the first.
    fn rest_count(self, six: [u16; 6], e: usize) -> u16
        requires e_bound { (e < 6) × (six ≡ values (count_of self.cell) 6) }
        ensures { result ≡ rest_count self.cell e }
    {
        let a = self.own[low_end(e)];
        let b = self.own[high_end(e)];
        (six[e] as u32).saturating_sub(a).saturating_sub(b) as u16
    }

    fn rest_start(self, e: usize) -> u32
        requires e_bound { e < 6 }
        ensures { result ≡ rest_start self.cell e }
    {
        let a = self.own[low_end(e)];
        self.cell.starts[e] + a
    }

    // The name of the inner face with edge e, where these names start at f.
    fn inner_name(self, f: u32, e: usize) -> u16
        requires e_bound { (e < 6) × (f + 6 ≤ short_limit) }
        ensures { result ≡ inner_name self.cell f e }
    {
        let x = self.label[low_end(e)];
        let y = self.label[high_end(e)];
        (f + joining_of(x, y)) as u16
    }

    // The position of the node with the label m.
    pub(crate) fn place_of(self, m: u32) -> usize
        requires m_bound { m < 4 }
        ensures { (result ≡ labelled (count_of self.cell) m) × (result < 4) }
    {
        if self.label[1] == m {
            1
        } else if self.label[2] == m {
            2
        } else if self.label[3] == m {
            3
        } else {
            0
        }
    }

    // The counts, first numbers and names of the sub-cell that omits position p.
    fn counts_of(self, p: usize) -> [u16; 6]
        requires p_bound { p < 4 }
        ensures { result ≡ arm_count self.cell (position p 0) ∷ arm_count self.cell (position p 1) ∷ arm_count self.cell (position p 2) ∷ rest_count self.cell (slot_edge p 0) ∷ rest_count self.cell (slot_edge p 1) ∷ rest_count self.cell (slot_edge p 2) ∷ [] }
    {
        let six = cell::taken_of(self.cell);
        let x = self.arm_count(position(p, 0));
        let y = self.arm_count(position(p, 1));
        let z = self.arm_count(position(p, 2));
        let u = self.rest_count(six, slot_edge(p, 0));
        let v = self.rest_count(six, slot_edge(p, 1));
        let w = self.rest_count(six, slot_edge(p, 2));
        [x, y, z, u, v, w]
    }

    fn starts_of(self, b: u32, p: usize) -> [u32; 6]
        requires p_bound { (p < 4) × (b < start_limit) }
        ensures { result ≡ arm_start self.cell b (position p 0) ∷ arm_start self.cell b (position p 1) ∷ arm_start self.cell b (position p 2) ∷ rest_start self.cell (slot_edge p 0) ∷ rest_start self.cell (slot_edge p 1) ∷ rest_start self.cell (slot_edge p 2) ∷ [] }
    {
        let x = self.arm_start(b, position(p, 0));
        let y = self.arm_start(b, position(p, 1));
        let z = self.arm_start(b, position(p, 2));
        let u = self.rest_start(slot_edge(p, 0));
        let v = self.rest_start(slot_edge(p, 1));
        let w = self.rest_start(slot_edge(p, 2));
        [x, y, z, u, v, w]
    }

    fn names_of(self, f: u32, p: usize) -> [u16; 4]
        requires p_bound { (p < 4) × (f + 6 ≤ short_limit) }
        ensures { result ≡ get_or self.cell.names p 0 ∷ inner_name self.cell f (slot_edge p 2) ∷ inner_name self.cell f (slot_edge p 1) ∷ inner_name self.cell f (slot_edge p 0) ∷ [] }
    {
        let x = self.cell.names[p];
        let y = self.inner_name(f, slot_edge(p, 2));
        let z = self.inner_name(f, slot_edge(p, 1));
        let u = self.inner_name(f, slot_edge(p, 0));
        [x, y, z, u]
    }

    // The sub-cell that omits the node with the label m, with its word 0.
    fn sub_of(self, b: u32, f: u32, word: u32, m: u32) -> Cell
        requires m_bound { (m < 4) × (b < start_limit) × (f + 6 ≤ short_limit) }
        ensures { result ≡ sub self.cell b f word m }
    {
        let p = self.place_of(m);
        let counts = self.counts_of(p);
        let starts = self.starts_of(b, p);
        let names = self.names_of(f, p);
        Cell {
            counts,
            starts,
            names,
            nodes: [0, 0, 0, 0],
            index: word,
        }
    }

    // The same where the split goes by `by`: the sub-cell's own number is k above that.
    pub(crate) fn sub_cell(self, by: Numbering, k: u32, m: u32) -> Cell
        requires m_bound { (m < 4) × (by.cell < word_step) × (by.number + k ≤ short_limit) × (by.crossing < start_limit) × (by.face + 6 ≤ short_limit) }
        ensures { result ≡ sub self.cell by.crossing by.face (by.cell + word_step * (by.number + k)) m }
    {
        let word = by.cell + MOST_CELLS as u32 * (by.number + k);
        self.sub_of(by.crossing, by.face, word, m)
    }

    // By what the sub-cell that omits k goes where this split goes by `by`, if it is split in turn.
    pub(crate) fn nested(self, by: Numbering) -> Numbering
        requires by_bound { (by.number + 2 ≤ short_limit) × (by.crossing + 2 * (self.larger + self.smaller) < start_limit) × (by.face + 6 ≤ short_limit) }
        ensures { result ≡ nested_numbering by (2 * (self.larger + self.smaller)) }
    {
        Numbering {
            cell: by.cell,
            number: by.number + 2,
            crossing: by.crossing + 2 * (self.larger + self.smaller),
            face: by.face + 6,
        }
    }
}

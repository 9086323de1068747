// The places of the inner crossings of a split cell, and of the middles of its fans.
ghost use Rattle.std.specs.Prelude.{◌≡◌, ◌+◌, ◌*◌, ◌≤◌, ◌<◌, length};
ghost use Rattle.counting.specs.Lists.{values};
ghost use Rattle.counting.specs.work.Stored.{Stored};
ghost use Rattle.place.specs.Place.{part_of, between, coordinates, all_numbers};
ghost use Rattle.cell.specs.Of.{count_of};
ghost use Rattle.cell.specs.claims.Nests.{nest_middle};
ghost use Rattle.split.specs.Labels.{labelled};
ghost use Rattle.split.specs.Standing.{corner_in, new_place, sub_places, split_places, fans_in};
ghost use Rattle.split.specs.work.Working.{SplitsLeft};
ghost use Rattle.split.specs.work.Spots.{Nesting, positioned, Spun, standing_inner, standing_fans};

use super::{Numbering, Spiral};
use cell::Cell;
use place::Place;
use slots::position;

impl Spiral {
    // Where the node with the label m is, of those at `at` by position.
    fn labelled_at(self, at: [Place; 4], m: u32) -> Place
        requires m_bound { m < 4 }
        ensures { result ≡ corner_in at (labelled (count_of self.cell) m) }
    {
        at[self.place_of(m)]
    }

    // Where the new node is: the mean of the four places, added up in the order of labels.
    fn new_place(self, at: [Place; 4]) -> Place
        ensures { result ≡ new_place (count_of self.cell) at }
    {
        let i = self.labelled_at(at, 0);
        let j = self.labelled_at(at, 1);
        let k = self.labelled_at(at, 2);
        let l = self.labelled_at(at, 3);
        place::over(place::plus(place::plus(place::plus(i, j), k), l), 4.0)
    }

    // Where the nodes of the sub-cell are that omits the node with the label m.
    fn sub_places(self, at: [Place; 4], m: u32) -> [Place; 4]
        requires m_bound { m < 4 }
        ensures { result ≡ sub_places (count_of self.cell) at m }
    {
        let a = self.new_place(at);
        let p = self.place_of(m);
        [
            a,
            at[position(p, 0)],
            at[position(p, 1)],
            at[position(p, 2)],
        ]
    }

    // Writes the places of the inner crossings of a split, as points from `i` on, and answers the next point.
    fn put_split(self, at: [Place; 4], area: &mut [f64], i: usize) -> usize
        requires at_in_bounds { coordinates * (i + length (split_places (count_of self.cell) at)) ≤ length area.old }
        ensures { Stored area.old (coordinates * i) (all_numbers (split_places (count_of self.cell) at)) area.new (coordinates * result) }
    {
        let a = self.new_place(at);
        let mut k = i;
        for m in 0..4 {
            let v = self.labelled_at(at, m);
            k = put_arm(a, v, self.spoke_count(m), area, k);
        }
        k
    }
}

// Writes the places of the n inner crossings on the new edge from a to v, as points from `i` on, and answers the next point.
fn put_arm(a: Place, v: Place, n: u32, area: &mut [f64], i: usize) -> usize
    requires { coordinates * (i + n) ≤ length area.old }
    ensures { Stored area.old (coordinates * i) (all_numbers (values (λ h. between a v (part_of h n)) n)) area.new (coordinates * result) }
{
    for h in 0..n {
        let p = place::interpolate(a, v, place::part_of(h, n));
        place::store(area, i + h as usize, p);
    }
    i + n as usize
}

// The inner crossings of c, a cell or a sub-cell whose nodes are at `at`, in order of working, as `split_in` has its parts. The sum of d1 and d2
// falls from split to split (01).
pub(crate) fn inner_in(
    c: Cell,
    at: [Place; 4],
    by: Numbering,
    left: u32,
    area: &mut [f64],
    i: usize,
) -> usize
    requires splits_left { SplitsLeft c by.cell by.number by.crossing by.face left }
    requires c_in_bounds { coordinates * (i + length (standing_inner by.cell by.number by.crossing by.face at c)) ≤ length area.old }
    ensures { Stored area.old (coordinates * i) (all_numbers (standing_inner by.cell by.number by.crossing by.face at c)) area.new (coordinates * result) }
{
    if left == 0 {
        return i;
    }
    let s = Spiral::of(c);
    let k = s.put_split(at, area, i);
    let inner = s.sub_cell(by, 2, 2);
    let places = s.sub_places(at, 2);
    inner_in(inner, places, s.nested(by), left - 1, area, k)
}

// The numbers of four places.
fn numbers_of(at: [Place; 4]) -> [f64; 12]
    ensures { result ≡ all_numbers at }
{
    let [p, q, r, s] = at;
    [p.x, p.y, p.z, q.x, q.y, q.z, r.x, r.y, r.z, s.x, s.y, s.z]
}

// The cell with its nodes numbered by position.
fn by_position(c: Cell) -> Cell
    ensures { result ≡ positioned c }
{
    Cell {
        nodes: [0, 1, 2, 3],
        ..c
    }
}

// Writes the middles of the fans of a nest whose nodes are at `at`, as points from `i` on, and answers the next point.
fn put_fans(c: Cell, at: [Place; 4], area: &mut [f64], i: usize) -> usize
    requires nesting { Nesting c }
    requires c_in_bounds { coordinates * (i + length (fans_in nest_middle at c)) ≤ length area.old }
    ensures { Stored area.old (coordinates * i) (all_numbers (fans_in nest_middle at c)) area.new (coordinates * result) }
{
    let nodes = numbers_of(at);
    cell::write_fans(by_position(c), &nodes, area, i)
}

// The middles of the fans of c, as `inner_in` has its inner crossings. Sub-cells that omit j and i have no fans.
pub(crate) fn centres_in(
    c: Cell,
    at: [Place; 4],
    by: Numbering,
    left: u32,
    area: &mut [f64],
    i: usize,
) -> usize
    requires spun { Spun c by.cell by.number by.crossing by.face left }
    requires c_in_bounds { coordinates * (i + length (standing_fans by.cell by.number by.crossing by.face at c)) ≤ length area.old }
    ensures { Stored area.old (coordinates * i) (all_numbers (standing_fans by.cell by.number by.crossing by.face at c)) area.new (coordinates * result) }
{
    if left == 0 {
        return put_fans(c, at, area, i);
    }
    let s = Spiral::of(c);
    let k = put_fans(s.sub_cell(by, 1, 3), s.sub_places(at, 3), area, i);
    let inner = s.sub_cell(by, 2, 2);
    let places = s.sub_places(at, 2);
    centres_in(inner, places, s.nested(by), left - 1, area, k)
}

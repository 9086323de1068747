// The numbers by which a cell is split: d1 and d2, the own corner triangles at each node, and the labels of the nodes.
ghost use Rattle.std.specs.Prelude.{◌≡◌, true, ◌+◌, ◌-◌, ◌/◌, ◌≤◌};
ghost use Rattle.cell.specs.Level.{by_edge, is_level_cell};
ghost use Rattle.cell.specs.Of.{count_of};
ghost use Rattle.booking.specs.Booking.{is_spiral, smallest, median};
ghost use Rattle.split.specs.work.Working.{AreOwn, label_by, LevelSix, SpiralNumbers};

use super::Spiral;
use cell::{Cell, sum_of};

// Half of what three counts have above the largest sum of a pair.
fn own_at(most: u32, x: u16, y: u16, z: u16) -> u32
    ensures { result ≡ (x + y + z - most) / 2 }
{
    (x as u32 + y as u32 + z as u32).saturating_sub(most) / 2
}

// The own corner triangles at each node of a cell with these counts, in which only rule 1 is met.
// Stays: here and in `direct`, since it asks for a level cell, and a public function asks nothing.
fn own_of(six: [u16; 6]) -> [u32; 4]
    requires { is_level_cell (by_edge six) ≡ true }
    ensures { AreOwn (by_edge six) result }
{
    let x = sum_of(six[0], six[5]);
    let y = sum_of(six[1], six[4]);
    let z = sum_of(six[2], six[3]);
    let most = x.max(y).max(z);
    [
        own_at(most, six[0], six[1], six[2]),
        own_at(most, six[0], six[3], six[4]),
        own_at(most, six[1], six[3], six[5]),
        own_at(most, six[2], six[4], six[5]),
    ]
}

// What the corner triangles at both ends leave of a count.
fn left_of(n: u16, a: u32, b: u32) -> u32
    ensures { (result ≡ n - a - b) × (result ≤ 65535) }
{
    (n as u32).saturating_sub(a).saturating_sub(b)
}

// Of three numbers the least, and the one between.
fn smallest_of(x: u32, y: u32, z: u32) -> u32
    ensures { result ≡ smallest x y z }
{
    x.min(y).min(z)
}

fn median_of(x: u32, y: u32, z: u32) -> u32
    ensures { result ≡ median x y z }
{
    x.min(y).max(x.max(y).min(z))
}

// The label of a position where r remains between the lowest node and it, for d1 and d2.
fn label_of(d1: u32, d2: u32, r: u32) -> u32
    ensures { result ≡ label_by d1 d2 r }
{
    if r == d1 {
        1
    } else if r == d2 {
        2
    } else {
        3
    }
}

impl Spiral {
    // The numbers of the cell.
    pub(crate) fn of(c: Cell) -> Spiral
        requires sound { LevelSix c }
        requires spiral { is_spiral (count_of c) ≡ true }
        ensures cell_is { result.cell ≡ c }
        ensures numbers { SpiralNumbers c result.larger result.smaller result.own result.label }
    {
        let six = cell::taken_of(c);
        let own = own_of(six);
        let x = left_of(six[0], own[0], own[1]);
        let y = left_of(six[1], own[0], own[2]);
        let z = left_of(six[2], own[0], own[3]);
        let larger = median_of(x, y, z);
        let smaller = smallest_of(x, y, z);
        let first = label_of(larger, smaller, x);
        let second = label_of(larger, smaller, y);
        let third = label_of(larger, smaller, z);
        Spiral {
            cell: c,
            larger,
            smaller,
            own,
            label: [0, first, second, third],
        }
    }
}

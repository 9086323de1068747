// A level cell whose triangles are written, its nodes in an order, and rows of crossing numbers.
ghost use Rattle.std.specs.Prelude.{◌≡◌, true, ◌*◌, ◌<◌};
ghost use Rattle.cell.specs.Of.{count_of};
ghost use Rattle.cell.specs.Level.{is_level_cell};
ghost use Rattle.cell.specs.claims.Nodes.{Arranged};
ghost use Rattle.direct.specs.work.Rows.{Listed, AreOwn};

use super::Row;
use cell::Cell;

// The cell with its counts listed, and the corner triangles at each node.
#[derive(Clone, Copy)]
pub(crate) struct LevelCell {
    pub(crate) cell: Cell,
    pub(crate) six: [u16; 6],
    pub(crate) own: [u32; 4],
    ghost listed: { Listed cell six },
    ghost level: { is_level_cell (count_of cell) ≡ true },
    ghost own_are: { AreOwn (count_of cell) own },
}

// The positions of the four nodes in an order.
#[derive(Clone, Copy)]
pub(crate) struct Nodes {
    pub(crate) a: u32,
    pub(crate) b: u32,
    pub(crate) c: u32,
    pub(crate) d: u32,
    ghost all: { Arranged a b c d },
}

// Loops of three, and of four, whose points go along rows, with the slots between the points.
#[derive(Clone, Copy)]
pub(crate) struct Threes {
    pub(crate) x: Row,
    pub(crate) y: Row,
    pub(crate) z: Row,
    pub(crate) s0: usize,
    pub(crate) s1: usize,
    pub(crate) s2: usize,
    ghost slots: { (s0 < 4) × (s1 < 4) × (s2 < 4) },
}

#[derive(Clone, Copy)]
pub(crate) struct Fours {
    pub(crate) x: Row,
    pub(crate) y: Row,
    pub(crate) z: Row,
    pub(crate) u: Row,
    pub(crate) s0: usize,
    pub(crate) s1: usize,
    pub(crate) s2: usize,
    pub(crate) s3: usize,
    ghost slots: { (s0 < 4) × (s1 < 4) × (s2 < 4) × (s3 < 4) },
}

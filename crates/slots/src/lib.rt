// The edges and slots of a cell, by the positions of its nodes: definitions in specs/, laws in proofs/.
#![tactic(auto)]

ghost use Rattle.std.specs.Prelude.{◌≡◌, ◌<◌, min};
ghost use Rattle.slots.specs.Slots.{lo, hi, lower, upper, position};

// The highest node, the greatest count of an edge, and the most cells and crossings that a grid may have.
pub const HIGHEST_NODE: usize = 4095;

pub const MOST_COUNT: u16 = 4095;

pub const MOST_CELLS: usize = 2048;

pub const MOST_CROSSINGS: u32 = 65535;

// So many slots the cells have at most, and so many edges.
pub const MOST_SLOTS: usize = 4 * MOST_CELLS;

pub const MOST_EDGES: usize = 6 * MOST_CELLS;

// The positions that edge k of a cell joins; 0 where there is no such edge.
#[tactic(auto, unfolding(crate::specs::Slots::lo))]
pub fn low_end(k: usize) -> usize
    ensures { (result ≡ lo k) × (result < 4) }
{
    match k {
        3 | 4 => 1,
        5 => 2,
        _ => 0,
    }
}

#[tactic(auto, unfolding(crate::specs::Slots::hi))]
pub fn high_end(k: usize) -> usize
    ensures { (result ≡ hi k) × (result < 4) }
{
    match k {
        0 => 1,
        1 | 3 => 2,
        2 | 4 | 5 => 3,
        _ => 0,
    }
}

// The nodes 0, 1, 2 of a face that its edge j joins.
#[tactic(auto, unfolding(crate::specs::Slots::lower))]
pub fn lower_end(j: u32) -> u32
    ensures { (result ≡ lower j) × (result < 3) }
{
    if j == 2 { 1 } else { 0 }
}

#[tactic(auto, unfolding(crate::specs::Slots::upper))]
pub fn upper_end(j: u32) -> u32
    ensures { (result ≡ upper j) × (result < 3) }
{
    if j == 0 { 1 } else { 2 }
}

// The position of slot s's node of this rank, of three; from rank 2 on, that of the last.
#[tactic(auto, unfolding(crate::specs::Slots::position))]
pub fn position(s: usize, rank: usize) -> usize
    ensures { (result ≡ position s (min rank 2)) × (result < 4) }
{
    let i = rank.min(2);
    if i < s { i } else { i + 1 }
}

// The cells whose triangles are counted without a walk: those in which only rule 1 is met, and the common ones.
ghost use Rattle.std.specs.Prelude.{◌≡◌, ◌+◌, ◌%◌, ◌≤◌, min, max};
ghost use Rattle.cell.specs.Level.{by_edge, is_level_cell};
ghost use Rattle.cell.specs.Common.{is_common};
ghost use Rattle.cell.specs.work.Table.{is_known};

use super::numbers::sum_of;

// One more than the greatest count of a common cell.
pub const DIGIT_LIMIT: u16 = 3;

fn sum_of_three(a: u16, b: u16, c: u16) -> u32
    ensures { result ≡ a + b + c }
{
    a as u32 + b as u32 + c as u32
}

// 1 where the sum of three counts is odd, else 0.
fn odd(a: u16, b: u16, c: u16) -> u32
    ensures { (result ≡ (a + b + c) % 2) × (result ≤ 1) }
{
    sum_of_three(a, b, c) % 2
}

// The highest sum of the counts of two opposite edges.
fn highest_pair(e01: u16, e02: u16, e03: u16, e12: u16, e13: u16, e23: u16) -> u32
    ensures { result ≡ max (max (e01 + e23) (e02 + e13)) (e03 + e12) }
{
    sum_of(e01, e23).max(sum_of(e02, e13)).max(sum_of(e03, e12))
}

// The lowest sum of the counts at a node.
fn lowest_node(e01: u16, e02: u16, e03: u16, e12: u16, e13: u16, e23: u16) -> u32
    ensures { result ≡ min (min (e01 + e02 + e03) (e01 + e12 + e13)) (min (e02 + e12 + e23) (e03 + e13 + e23)) }
{
    let low = sum_of_three(e01, e02, e03).min(sum_of_three(e01, e12, e13));
    let high = sum_of_three(e02, e12, e23).min(sum_of_three(e03, e13, e23));
    low.min(high)
}

// Whether no face of a cell with these counts, of the edges 01, 02, 03, 12, 13, 23, has an odd sum or a count above the other two. Of four faces an even
// number have odd sums; and no count is above the other two exactly where no two opposite edges have more than the three edges of a node.
pub fn is_level(counts: [u16; 6]) -> bool
    ensures { result ≡ is_level_cell (by_edge counts) }
{
    let e01 = counts[0];
    let e02 = counts[1];
    let e03 = counts[2];
    let e12 = counts[3];
    let e13 = counts[4];
    let e23 = counts[5];
    odd(e01, e02, e12) + odd(e01, e03, e13) + odd(e02, e03, e23) == 0
        && highest_pair(e01, e02, e03, e12, e13, e23) <= lowest_node(e01, e02, e03, e12, e13, e23)
}

// Whether the six counts are 0, 1 or 2.
pub fn is_common(counts: [u16; 6]) -> bool
    ensures { result ≡ is_common (by_edge counts) }
{
    counts.iter().all(|n| *n < DIGIT_LIMIT)
}

// Whether the triangles of a cell with these counts are counted without a walk.
pub(crate) fn is_known(counts: [u16; 6]) -> bool
    ensures { result ≡ is_known (by_edge counts) }
{
    is_common(counts) || is_level(counts)
}

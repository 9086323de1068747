// The booking of a cell: how many triangles it has, from its six counts and without a walk; and the triangles of the loops of all cells, counted by it.
#![tactic(auto)]

ghost use Rattle.std.specs.Prelude.{◌≡◌, ◌+◌, ◌≤◌, Some, IfSome};
ghost use Rattle.cell.specs.work.Limits.{most_sum};
ghost use Rattle.cell.specs.Level.{by_edge};
ghost use Rattle.booking.specs.Booking.{smallest, median, beside, beside_drawn};
ghost use Rattle.booking.specs.work.Fans.{fans_numbers, fans_answer};
ghost use Rattle.booking.specs.Answer.{booking_numbers, booking_answer};
ghost use Rattle.booking.specs.work.Sums.{most_number, most_beside, FewFans, GainBy, GainIn, Three, of_three, largest, Sums};

use cell::sum_of;

mod splits;
mod tables;

pub use splits::figures_of;
pub use tables::{count_all, crossings_in};

// What is booked: the corner triangles, the two smaller numbers d1 and d2 left at the lowest node, and the triangles in all that are drawn of the cell.
#[derive(Clone, Copy)]
pub struct Booking {
    pub corners: u32,
    pub d1: u32,
    pub d2: u32,
    pub triangles: u64,
}

// The same with the triangles of the cell's loops, whether it is split or not.
#[derive(Clone, Copy)]
struct Fans {
    corners: u32,
    d1: u32,
    d2: u32,
    triangles: u32,
}

// For two numbers d1 and d2: how many splits there are, how many inner crossings and how many triangles beside the own corner triangles they have, and the
// number at the end, which is the greatest common divisor.
#[derive(Clone, Copy)]
pub struct SplitSums {
    pub splits: u32,
    pub inner: u64,
    pub triangles: u64,
    pub end: u32,
}

// The splits that are made in a cell, and how many triangles it has more by them.
#[derive(Clone, Copy)]
pub struct Gain {
    pub splits: u32,
    pub more: u64,
}

// The triangles beside the corner triangles.
fn beside_of(d1: u32, d2: u32) -> u32
    requires { d1 + d2 ≤ most_sum }
    ensures { result ≡ beside d1 d2 }
{
    if d2 == 0 { 2 * d1 } else { 4 * (d1 + d2) }
}

// The triangles of the loops from the sums of the counts of opposite edges, in order.
fn of_three(most: u32, mid: u32, least: u32) -> Fans
    requires { Three most mid least }
    ensures { (fans_numbers (Some result) ≡ of_three most mid least) × FewFans result }
{
    let corners = least + mid - most;
    let d1 = (most - least) / 2;
    let d2 = (most - mid) / 2;
    Fans {
        corners,
        d1,
        d2,
        triangles: corners + beside_of(d1, d2),
    }
}

// The same, in any order.
fn from_sums(x: u32, y: u32, z: u32) -> Fans
    requires { Sums x y z }
    ensures { (fans_numbers (Some result) ≡ of_three (largest x y z) (median x y z) (smallest x y z)) × FewFans result }
{
    let most = x.max(y).max(z);
    let least = x.min(y).min(z);
    of_three(most, x + y + z - most - least, least)
}

// The same for a cell with these counts, of the edges 01, 02, 03, 12, 13, 23. A cell with a face that has an odd sum or a count above the other two is to be
// walked.
fn fans_of(counts: [u16; 6]) -> Option<Fans>
    ensures fans { fans_numbers result ≡ fans_answer (by_edge counts) }
    ensures few { IfSome result FewFans }
{
    if !cell::is_level(counts) {
        return None;
    }
    let x = sum_of(counts[0], counts[5]);
    let y = sum_of(counts[1], counts[4]);
    let z = sum_of(counts[2], counts[3]);
    Some(from_sums(x, y, z))
}

// The triangles beside the corner triangles, with the split result in place of the fans of a cell that is split.
fn drawn_beside(d1: u32, d2: u32) -> u64
    requires { (d2 ≤ d1) × (d1 ≤ most_number) }
    ensures { (result ≡ beside_drawn d1 d2) × (result ≤ most_beside) }
{
    if d2 == 0 {
        return (2 * d1) as u64;
    }
    let f = figures_of(d1 as u16, d2 as u16);
    if 1 < f.end {
        return f.triangles;
    }
    (4 * (d1 + d2)) as u64
}

// The booking of a cell with these counts, of the edges 01, 02, 03, 12, 13, 23, where it need not be walked.
pub fn book(counts: [u16; 6]) -> Option<Booking>
    ensures { booking_numbers result ≡ booking_answer (by_edge counts) }
{
    let f = fans_of(counts)?;
    Some(Booking {
        corners: f.corners,
        d1: f.d1,
        d2: f.d2,
        triangles: f.corners as u64 + drawn_beside(f.d1, f.d2),
    })
}

fn no_gain() -> Gain
    ensures { (result.splits ≡ 0) × (result.more ≡ 0) }
{
    Gain { splits: 0, more: 0 }
}

fn gain_by(d1: u32, d2: u32) -> Gain
    requires { (d2 ≤ d1) × (d1 ≤ most_number) }
    ensures { GainBy d1 d2 result }
{
    if d2 < 2 || d2 == d1 {
        return no_gain();
    }
    let f = figures_of(d1 as u16, d2 as u16);
    if f.end == 1 {
        return no_gain();
    }
    Gain {
        splits: f.splits,
        more: f.triangles - (4 * (d1 + d2)) as u64,
    }
}

// In a cell that is split d2 is at least 2 and d1 above it, so that the edges at its lowest node have at least so many crossings.
const FEWEST: u32 = 10;

// What splitting adds to a cell with these counts: nothing to one that is not split.
pub fn gain_of(counts: [u16; 6]) -> Gain
    ensures { GainIn (by_edge counts) result }
{
    if counts[0] as u32 + counts[1] as u32 + (counts[2] as u32) < FEWEST {
        return no_gain();
    }
    match fans_of(counts) {
        Some(f) => gain_by(f.d1, f.d2),
        None => no_gain(),
    }
}

// What is summed over the splits of a cell (02, W12), from its two numbers alone.
ghost use Rattle.std.specs.Prelude.{◌*◌, ◌≤◌};
ghost use Rattle.booking.specs.work.Sums.{most_number, most_added, AreFigures, EndsAt};

use super::SplitSums;

// The figures, where x is the number at the end.
fn figures_at(splits: u32, inner: u64, triangles: u64, x: u32) -> SplitSums
    requires { (x ≤ most_number) × (triangles ≤ most_added * (2 * most_number)) }
    ensures { EndsAt splits inner triangles x result }
{
    SplitSums {
        splits,
        inner,
        triangles: triangles + (8 * x) as u64,
        end: x,
    }
}

// The figures of two numbers. Their sum falls from split to split where d1 ≥ d2 > 0, and bounds the turns for all others.
pub fn figures_of(d1: u16, d2: u16) -> SplitSums
    ensures { AreFigures d1 d2 result }
{
    let mut x = d1 as u32;
    let mut y = d2 as u32;
    let most = x + y;
    let mut inner: u64 = 0;
    let mut triangles: u64 = 0;
    for splits in 0..most {
        if x == y {
            return figures_at(splits, inner, triangles, x);
        }
        inner += (2 * (x + y)) as u64;
        triangles += (4 * x + 10 * y) as u64;
        let d = x.saturating_sub(y);
        x = d.max(y);
        y = d.min(y);
    }
    figures_at(most, inner, triangles, x)
}

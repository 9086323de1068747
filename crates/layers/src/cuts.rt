// Cuts, and the runs between them.
ghost use Rattle.std.specs.Prelude.{◌≡◌, ◌+◌, ◌≤◌, length};
ghost use Rattle.counting.specs.work.Search.{found};
ghost use Rattle.layers.specs.Cuts.{run_start, run_end, run_size, bad_cut};
ghost use Rattle.layers.specs.work.Work.{RunOfCuts};

use super::Span;

// The lowest cut that row 25 refuses for a grid of n cells.
pub(crate) fn first_bad(cuts: &[u16], n: usize) -> Option<usize>
    ensures { result ≡ found (bad_cut n cuts.now) (length cuts.now) }
{
    let mut before = 0;
    for i in 0..cuts.len() {
        let cut = cuts[i] as usize;
        if cut <= before || n <= cut {
            return Some(i);
        }
        before = cut;
    }
    None
}

// The first cell of run r, and the first after it, where there are n cells.
fn start_of(cuts: &[u16], r: usize) -> usize
    requires { r ≤ length cuts.now }
    ensures { result ≡ run_start cuts.now r }
{
    if r == 0 { 0 } else { cuts[r - 1] as usize }
}

fn end_of(cuts: &[u16], n: usize, r: usize) -> usize
    requires { r ≤ length cuts.now }
    ensures { result ≡ run_end n cuts.now r }
{
    if r < cuts.len() { cuts[r] as usize } else { n }
}

impl Span {
    // Run r, of n cells that are cut as row 25 allows. Its mark is above those of the runs before it.
    pub(crate) fn of(cuts: &[u16], n: usize, r: usize) -> Span
        requires { RunOfCuts n cuts.now r }
        ensures { (result.from ≡ run_start cuts.now r) × (result.size ≡ run_size n cuts.now r) × (result.mark ≡ r + 1) }
    {
        let from = start_of(cuts, r);
        Span {
            from,
            size: end_of(cuts, n, r) - from,
            mark: (r + 1) as u16,
        }
    }
}

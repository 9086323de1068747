// Pairs of numbers that have a key.
ghost use Rattle.std.specs.Prelude.{◌≡◌, ◌+◌, ◌*◌, ◌/◌, ◌<◌, ◌≤◌, length};
ghost use Rattle.counting.specs.work.Search.{found};
ghost use Rattle.counting.specs.Stored.{filled};
ghost use Rattle.trees.specs.work.Keys.{key_in, pair_in, pair_lacks, paired_at};
ghost use Rattle.trees.specs.work.Planted.{key_branches, Growing, PairsLent, PairsMarked, Topped, source_at, spread_at};

use crate::BRANCHES;
use crate::planting::{Forest, latest_of_all};

// The mark of a last place whose key a pair has, on top of what stands there.
const MET: usize = 32768;

// Pair e in one number.
fn pair_at(pairs: &[u16], e: usize) -> usize
    requires { 2 * e + 1 < length pairs.now }
    ensures { result ≡ pair_in pairs.now e }
{
    let u = pairs[2 * e] as usize;
    let v = pairs[2 * e + 1] as usize;
    u * 65536 + v
}

// The lowest pair that has none of the keys. The last place with a key that a pair has gets one more than the lowest such pair, and a mark.
pub(crate) fn mark(
    pairs: &[u16],
    forest: &Forest<&[usize], BRANCHES>,
    tops: &mut [u16],
    places: &mut [usize],
) -> Option<usize>
    requires lent { PairsLent forest.now.keys.now.now forest.now.count tops.old places.old }
    requires all { forest.now.count ≡ length forest.now.keys.now.now }
    ensures value { result ≡ found (pair_lacks pairs.now forest.now.keys.now.now forest.now.count) (length pairs.now / 2) }
    ensures pairs_marked { PairsMarked pairs.now (length pairs.now / 2) forest.now.keys.now.now forest.now.count 0 places.old tops.new places.new }
{
    let mut lowest = None;
    for e in (0..pairs.len() / 2).rev() {
        let key = pair_at(pairs, e);
        let Some(p) = latest_of_all(forest, key) else {
            lowest = Some(e);
            continue;
        };
        tops[p] = (p + 1 + MET) as u16;
        places[p] = e + 1;
    }
    lowest
}

// The last place with j's key where it has a mark, else j; of n places each has its last place's top.
fn source(tops: &[u16], n: usize, j: usize) -> usize
    requires topped { Topped n tops.now }
    requires j_lt_n { j < n }
    ensures { result ≡ source_at tops.now j }
{
    let t = tops[j] as usize % MET - 1;
    if (tops[t] as usize) < MET { j } else { t }
}

// Each of n places gets the entry of the last with its key, where that has a mark.
pub(crate) fn spread(n: usize, tops: &[u16], places: &mut [usize])
    requires topped { Topped n tops.now }
    requires n_in_bounds { n ≤ length places.old }
    ensures { places.new ≡ filled (spread_at tops.now places.old) n places.old }
{
    for j in 0..n {
        places[j] = places[source(tops, n, j)];
    }
}

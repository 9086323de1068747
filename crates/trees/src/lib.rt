// Places in trees by their keys, for any keys and any number of branches (`bundle` plants looks, whose keys lie in bytes, and the code here keys in a
// list). The public functions answer every input; the two over lists say nothing of trees.
#![tactic(auto)]

ghost use Rattle.std.specs.Prelude.{◌≡◌, ◌+◌, ◌*◌, ◌/◌, ◌≤◌, min, length};
ghost use Rattle.counting.specs.work.Search.{found};
ghost use Rattle.counting.specs.Stored.{filled};
ghost use Rattle.trees.specs.work.Trees.{trees};
ghost use Rattle.trees.specs.work.Planted.{key_branches, most_links};
ghost use Rattle.trees.specs.work.Keys.{most_places, place_room, earlier_in, pair_lacks, paired_at};

mod earlier;
mod pairs;
mod planting;

pub use planting::{Forest, Keys, plant};

// The trees: a prime that shares no factor with 65,536, by which keys are packed, and leaves 2,184 of it: neighbouring keys fall apart.
pub const TREES: usize = 7919;

// The most places that are planted; pairs have smaller tables for up to half as many.
pub const MOST_PLACES: usize = 12288;

const FEW_PLACES: usize = MOST_PLACES / 2;

// The branches of a place in a list.
const BRANCHES: usize = 2;

// The links: to the trees, then the branches of each place.
const MOST_LINKS: usize = TREES + BRANCHES * MOST_PLACES;

const FEW_LINKS: usize = TREES + BRANCHES * FEW_PLACES;

// For each key, up to the end of either list and no more than 12,288: one more than the last place before it with the same key, or 0.
// Keeps 63 KB on the stack.
pub fn earlier_of(keys: &[usize], prev: &mut [u16])
    ensures { prev.new ≡ filled (earlier_in keys.now) (place_room (length keys.now) (length prev.old)) prev.old }
{
    let n = keys.len().min(prev.len()).min(MOST_PLACES);
    let mut links = [0u16; MOST_LINKS];
    earlier::put_earlier(&keys[..n], &mut links, prev);
}

// The lowest pair that has none of the keys. Each key that a pair has gets one more than the lowest such pair; the other entries stay.
// Keeps its tables on the stack, 2 bytes for each link and each place.
fn pairs_within<const LINKS: usize, const PLACES: usize>(
    pairs: &[u16],
    keys: &[usize],
    places: &mut [usize],
) -> Option<usize>
    requires links { (trees + key_branches * length keys.now ≤ LINKS) × (LINKS ≤ most_links) }
    requires tops { (length keys.now ≤ PLACES) × (PLACES ≤ most_places) }
    requires places { length keys.now ≤ length places.old }
    ensures value { result ≡ found (pair_lacks pairs.now keys.now (length keys.now)) (length pairs.now / 2) }
    ensures places_after { places.new ≡ filled (paired_at pairs.now (length pairs.now / 2) keys.now places.old) (length keys.now) places.old }
{
    let mut links = [0u16; LINKS];
    let mut tops = [0u16; PLACES];
    let forest = planting::plant_all::<BRANCHES>(&keys, &mut links, &mut tops);
    let lowest = pairs::mark(pairs, &forest, &mut tops, places);
    pairs::spread(keys.len(), &tops, places);
    lowest
}

// The lowest pair that has none of the first n keys, up to the end of either list and no more than 12,288. Each of these keys that a pair has gets one
// more than the lowest such pair; the other entries stay. Keeps 51 KB on the stack for up to 6,144 keys, and 87 KB for more.
pub fn pairs_of(pairs: &[u16], keys: &[usize], n: usize, places: &mut [usize]) -> Option<usize>
    ensures value { result ≡ found (pair_lacks pairs.now keys.now (place_room (min n (length keys.now)) (length places.old))) (length pairs.now / 2) }
    ensures places_after { places.new ≡ filled (paired_at pairs.now (length pairs.now / 2) keys.now places.old) (place_room (min n (length keys.now)) (length places.old)) places.old }
{
    let k = n.min(keys.len()).min(places.len()).min(MOST_PLACES);
    if k <= FEW_PLACES {
        pairs_within::<FEW_LINKS, FEW_PLACES>(pairs, &keys[..k], places)
    } else {
        pairs_within::<MOST_LINKS, MOST_PLACES>(pairs, &keys[..k], places)
    }
}

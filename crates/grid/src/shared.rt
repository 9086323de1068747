// What the check of a flat grid shares with that of a grid, besides rows 6, 18 and 10: the places of equal keys, and the edges that have a key. Both are
// found by trees (`trees`), in a few steps for each key and edge, whatever the keys are.
ghost use Rattle.std.specs.Prelude.{◌≡◌, ◌/◌, min, length};
ghost use Rattle.counting.specs.work.Search.{found};
ghost use Rattle.counting.specs.Stored.{filled};
ghost use Rattle.grid.specs.work.Shared.{earlier_at, key_room, keyless, placed_at};

// For each key, up to the end of either list and no more than 12,288: one more than the last place before it with the same key, or 0.
// Keeps 64 KB on the stack.
pub fn earlier_places(keys: &[usize], prev: &mut [u16])
    ensures { prev.new ≡ filled (earlier_at keys.now) (key_room (length keys.now) (length prev.old)) prev.old }
{
    trees::earlier_of(keys, prev);
}

// The lowest edge that has none of the first n keys, up to the end of either list and no more than 12,288. Each of these keys that an edge has gets one
// more than the place of the lowest such edge; the other entries stay. Keeps 52 KB on the stack for up to 6,144 keys, and 88 KB for more.
pub fn edge_places(edges: &[u16], keys: &[usize], n: usize, places: &mut [usize]) -> Option<usize>
    ensures value { result ≡ found (keyless edges.now keys.now (key_room (min n (length keys.now)) (length places.old))) (length edges.now / 2) }
    ensures places_after { places.new ≡ filled (placed_at edges.now (length edges.now / 2) keys.now places.old) (key_room (min n (length keys.now)) (length places.old)) places.old }
{
    trees::pairs_of(edges, keys, n, places)
}

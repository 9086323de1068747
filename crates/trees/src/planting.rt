// Keys in trees: the remainder of a key chooses the tree, and at each place on the way down the next digit of the key, to the base B, chooses one of B
// branches. With two branches keys of 32 bits have ways of 33 places at most, whatever they are, and keys of 64 bits of 65; with four, 17 and 33.
ghost use Rattle.std.specs.Prelude.{◌≡◌, ℕ, ◌<◌, ◌≤◌, length};
ghost use Rattle.trees.specs.work.Trees.{Tree, top_for, link_to, Sought};
ghost use Rattle.trees.specs.work.Keys.{key_in, key_below};
ghost use Rattle.trees.specs.work.Planted.{Planting, Growing, Grown, IsBlank, KeyTops, link_room, planted_of};

use crate::{MOST_PLACES, TREES};

// Keys at places, in whatever memory they lie.
pub trait Keys {
    ghost places: { Self → ℕ };

    ghost key_at: { Self → ℕ → ℕ };

    // How many places there are.
    fn count(&self) -> usize
        ensures { result ≡ places self.now };

    // The key at a place; 0 where there is no such place.
    fn key(&self, place: usize) -> usize
        ensures { result ≡ key_below (places self.now) (key_at self.now) place };
}

impl Keys for &[usize] {
    ghost places = { λ keys. length keys.now };

    ghost key_at = { λ keys. key_in keys.now };

    fn count(&self) -> usize {
        self.len()
    }

    fn key(&self, place: usize) -> usize {
        if place < self.len() { self[place] } else { 0 }
    }
}

// Keys that are asked for only at places that there are. A trait of this file alone, since a public method asks nothing: the key of a place of `Keys` is told
// after a test, for which the planting of a list would pay at each step.
trait Placed {
    ghost places: { Self → ℕ };

    ghost key_at: { Self → ℕ → ℕ };

    // How many places there are.
    fn count(&self) -> usize
        ensures { result ≡ places self.now };

    // The key at one of them.
    fn key(&self, place: usize) -> usize
        requires { place < places self.now }
        ensures { result ≡ key_at self.now place };
}

impl Placed for &[usize] {
    ghost places = { λ keys. length keys.now };

    ghost key_at = { λ keys. key_in keys.now };

    fn count(&self) -> usize {
        self.len()
    }

    fn key(&self, place: usize) -> usize {
        self[place]
    }
}

// Where the way of a key ends, if the places from low on are planted: at the link to the last place with the key, or at an empty one. A link is one more
// than a place, or 0.
fn seek<K: Placed, const B: usize>(keys: &K, low: usize, links: &[u16], key: usize) -> usize
    requires some { 0 < B }
    requires tree { Tree B (K.key_at keys.now) (K.places keys.now) low links.now }
    ensures { Sought B (K.key_at keys.now) (K.places keys.now) low links.now key result }
{
    let mut at = key % TREES;
    let mut rest = key;
    let mut j = links[at] as usize;
    // Stays: a while, since the next place comes from the links and not from a range.
    while 0 < j {
        if keys.key(j - 1) == key {
            return at;
        }
        at = TREES + B * (j - 1) + rest % B;
        rest = rest / B;
        j = links[at] as usize;
    }
    at
}

// Plants place i, unless a later one with its key stands; those after it are planted. Answers one more than the last place with its key.
fn plant_one<K: Placed, const B: usize>(keys: &K, i: usize, links: &mut [u16]) -> usize
    requires { Planting B (K.key_at keys.now) (K.places keys.now) i links.old }
    ensures value { result ≡ top_for (K.key_at keys.now) (K.places keys.now) (K.key_at keys.now i) }
    ensures tree { Tree B (K.key_at keys.now) (K.places keys.now) i links.new }
{
    let at = seek::<K, B>(keys, i + 1, links, keys.key(i));
    let p = links[at] as usize;
    if 0 < p {
        return p;
    }
    links[at] = (i + 1) as u16;
    i + 1
}

// Plants all places, and fills in, for each, one more than the last with its key.
pub(crate) fn grow<K: Placed, const B: usize>(keys: &K, links: &mut [u16], tops: &mut [u16])
    requires { Growing B (K.key_at keys.now) (K.places keys.now) links.old tops.old }
    ensures tree { Tree B (K.key_at keys.now) (K.places keys.now) 0 links.new }
    ensures key_tops { KeyTops (K.key_at keys.now) (K.places keys.now) 0 tops.old tops.new }
{
    for i in (0..keys.count()).rev() {
        tops[i] = plant_one::<K, B>(keys, i, links) as u16;
    }
}

// The last place with this key, where one has it; all are planted.
fn latest_in<K: Placed, const B: usize>(keys: &K, links: &[u16], key: usize) -> Option<usize>
    requires { Grown B (K.key_at keys.now) (K.places keys.now) links.now }
    ensures { link_to result ≡ top_for (K.key_at keys.now) (K.places keys.now) key }
{
    let at = seek::<K, B>(keys, 0, links, key);
    (links[at] as usize).checked_sub(1)
}

// The first `count` places of keys, by themselves.
#[derive(Drop)]
struct First<'k, K: Keys> {
    keys: &'k K,
    count: usize,
    ghost within: { count ≤ K.places keys.now },
}

impl<K: Keys> Placed for First<'_, K> {
    ghost places = { λ first. first.count };

    ghost key_at = { λ first. K.key_at first.keys.now };

    fn count(&self) -> usize {
        self.count
    }

    fn key(&self, place: usize) -> usize {
        self.keys.key(place)
    }
}

// The first `count` places of keys, planted in links with B branches to a place.
#[derive(Drop)]
pub struct Forest<'k, K: Keys, const B: usize> {
    pub keys: &'k K,
    pub count: usize,
    links: &'k mut [u16],
    ghost within: { count ≤ K.places keys.now },
    ghost grown: { 0 < count → Grown B (K.key_at keys.now) count links.now },
    ghost blank: { count ≡ 0 → IsBlank links.now },
}

// For how many places the links have room; for none without branches.
fn room<const B: usize>(links: &[u16]) -> usize
    ensures { result ≡ link_room B (length links.now) }
{
    links
        .len()
        .saturating_sub(TREES)
        .checked_div(B)
        .unwrap_or(0)
}

// Plants all places of a list in empty links, and fills in, for each, one more than the last with its key.
pub(crate) fn plant_all<'k, const B: usize>(
    keys: &'k &'k [usize],
    links: &'k mut [u16],
    tops: &mut [u16],
) -> Forest<'k, &'k [usize], B>
    requires { Growing B (key_in keys.now.now) (length keys.now.now) links.old tops.old }
    ensures keys { result.keys.now ≡ keys.now }
    ensures count { result.count ≡ length keys.now.now }
    ensures key_tops { KeyTops (key_in keys.now.now) (length keys.now.now) 0 tops.old tops.new }
{
    grow::<&[usize], B>(keys, links, tops);
    let count = keys.len();
    Forest { keys, count, links }
}

// Plants as many of the places as links and tops have room for, 12,288 at most, and fills in, for each, one more than the last of them with its key. The
// links are in the forest from then on, which is only read: they end as planted, and what stood in them is gone.
pub fn plant<'k, K: Keys, const B: usize>(
    keys: &'k K,
    links: &'k mut [u16],
    tops: &mut [u16],
) -> Forest<'k, K, B>
    ensures keys { result.keys.now ≡ keys.now }
    ensures count { result.count ≡ planted_of B (K.places keys.now) (length links.old) (length tops.old) }
    ensures links { result.links.ghost_name ≡ links.entry.ghost_name }
    ensures key_tops { KeyTops (K.key_at keys.now) result.count 0 tops.old tops.new }
{
    let count = keys
        .count()
        .min(tops.len())
        .min(room::<B>(links))
        .min(MOST_PLACES);
    links.fill(0);
    if 0 < count {
        grow::<First<K>, B>(&First { keys, count }, links, tops);
    }
    Forest { keys, count, links }
}

impl<K: Keys, const B: usize> Forest<'_, K, B> {
    // The last of the planted places with this key, where one has it.
    pub fn latest(&self, key: usize) -> Option<usize>
        ensures { link_to result ≡ top_for (K.key_at self.now.keys.now) self.now.count key }
    {
        if self.count == 0 {
            return None;
        }
        let first = First {
            keys: self.keys,
            count: self.count,
        };
        latest_in::<First<K>, B>(&first, self.links, key)
    }
}

// The same of a list of which all places are planted.
pub(crate) fn latest_of_all<const B: usize>(
    forest: &Forest<&[usize], B>,
    key: usize,
) -> Option<usize>
    requires { forest.now.count ≡ length forest.now.keys.now.now }
    ensures { link_to result ≡ top_for (key_in forest.now.keys.now.now) forest.now.count key }
{
    if forest.count == 0 {
        return None;
    }
    latest_in::<&[usize], B>(forest.keys, forest.links, key)
}

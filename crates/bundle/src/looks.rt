// Later looks at edges: the lowest that is for no edge, and the counts that survive. Looks are taken in blocks. Those of a block stand in trees, by
// their pairs' keys (`trees`), with four branches to a look: a key has 32 bits, so that an edge finds the last look of a block that is for it in 17
// steps at most, whatever the pairs are.
ghost use Rattle.std.specs.Prelude.{◌≡◌, ◌+◌, ◌-◌, ◌<◌, ◌≤◌, min, length, true};
ghost use Rattle.counting.specs.work.Search.{found};
ghost use Rattle.counting.specs.Stored.{filled};
ghost use Rattle.bundle.specs.Record.{next_record, is_record};
ghost use Rattle.bundle.specs.Bundle.{edges, looks, is_stray, count_after};
ghost use Rattle.trees.specs.work.Trees.{link_to};
ghost use Rattle.bundle.specs.work.Looked.{block_looks, key_at, block_key, EndsWithin, MarksLent, KeysMarked, MarksRead, top_unmet, LooksLent, Counted, count_or};

use crate::records::{COUNT_PLACE, HEAD_BYTES, LOOK_BYTES, WORD_BYTES, word_at};
use trees::{Forest, Keys, MOST_PLACES, TREES, plant};

// The looks of a block, at most.
const BLOCK: usize = MOST_PLACES;

// The branches of a look, and the links of a block: the trees' first looks, then the branches of each look.
const BRANCHES: usize = 4;

const LINKS: usize = TREES + BRANCHES * BLOCK;

// The edges and the looks of the bytes of a bundle: where they start, and how many there are.
#[derive(Clone, Copy)]
pub(crate) struct Looked<'a> {
    pub bytes: &'a [u8],
    pub from: usize,
    pub edges: usize,
    pub base: usize,
    pub looks: usize,
    ghost lent: { LooksLent bytes.now from edges base looks },
}

// A block of its looks, from one on.
#[derive(Clone, Copy)]
struct Block<'a> {
    of: Looked<'a>,
    first: usize,
    count: usize,
    ghost few: { count ≤ block_looks },
    ghost within: { first + count ≤ of.looks },
}

impl Looked<'_> {
    // The block from a look on.
    fn block(&self, first: usize) -> Block
        requires { first < self.now.looks }
        ensures of { result.of ≡ self.now }
        ensures first { result.first ≡ first }
        ensures count { result.count ≡ min (self.now.looks - first) block_looks }
    {
        Block {
            of: *self,
            first,
            count: (self.looks - first).min(BLOCK),
        }
    }
}

// The pair of the record at a place, in one number.
fn key_at(bytes: &[u8], at: usize) -> usize
    requires { EndsWithin bytes.now at }
    ensures { result ≡ key_at bytes.now at }
{
    let u = word_at(bytes, at + HEAD_BYTES) as usize;
    let v = word_at(bytes, at + HEAD_BYTES + WORD_BYTES) as usize;
    u * 65536 + v
}

// The places of a block are counted from its first look, and have the keys of their pairs.
impl Keys for Block<'_> {
    ghost places = { λ block. block.count };

    ghost key_at = { λ block. block_key block.of.bytes.now block.first };

    fn count(&self) -> usize {
        self.count
    }

    fn key(&self, place: usize) -> usize {
        if self.count <= place {
            return 0;
        }
        key_at(
            self.of.bytes,
            self.of.base + LOOK_BYTES * (self.first + place),
        )
    }
}

// Where the record after the one at a place starts.
fn next_at(bytes: &[u8], at: usize) -> usize
    requires { is_record bytes.now at ≡ true }
    ensures { result ≡ next_record bytes.now at }
{
    at + WORD_BYTES + word_at(bytes, at) as usize
}

// Marks the last look of each key that an edge has, of those that are planted.
fn mark(forest: &Forest<Block, BRANCHES>, met: &mut [bool])
    requires { MarksLent forest.now.count met.old }
    ensures { KeysMarked forest.now.keys.now.of.bytes.now forest.now.keys.now.first forest.now.count met.new }
{
    let block = forest.keys;
    let mut at = block.of.from;
    for _ in 0..block.of.edges {
        let key = key_at(block.of.bytes, at);
        at = next_at(block.of.bytes, at);
        if let Some(place) = forest.latest(key) {
            met[place] = true;
        }
    }
}

// The lowest of n places whose last look with the same key has no mark.
fn unmet(tops: &[u16], n: usize, met: &[bool]) -> Option<usize>
    requires { MarksRead tops.now n met.now }
    ensures { result ≡ found (top_unmet tops.now met.now) n }
{
    for j in 0..n {
        if !met[tops[j] as usize - 1] {
            return Some(j);
        }
    }
    None
}

// The lowest place of a block whose look is for no edge. Keeps 148 KB on the stack.
fn stray_in(block: &Block) -> Option<usize>
    ensures { result ≡ found (λ j. is_stray block.now.of.bytes.now (block.now.first + j)) block.now.count }
{
    let mut links = [0u16; LINKS];
    let mut tops = [0u16; BLOCK];
    let mut met = [false; BLOCK];
    let count = block.count;
    let forest = plant::<Block, BRANCHES>(block, &mut links, &mut tops);
    mark(&forest, &mut met);
    unmet(&tops, count, &met)
}

// The lowest look that is for no edge.
pub(crate) fn first_stray(looked: &Looked) -> Option<usize>
    ensures { result ≡ found (is_stray looked.now.bytes.now) (looks looked.now.bytes.now) }
{
    let mut m: usize = 0;
    // Stays: a while, since a block tells how far it goes.
    while m < looked.looks {
        let block = looked.block(m);
        if let Some(j) = stray_in(&block) {
            return Some(m + j);
        }
        m += block.count;
    }
    None
}

// The count of the look at a place of a block, or the one that is given.
fn count_from(block: &Block, place: Option<usize>, given: u16) -> u16
    requires { link_to place ≤ block.now.count }
    ensures { result ≡ count_or block.now.of.bytes.now block.now.first (link_to place) given }
{
    match place {
        Some(i) => word_at(
            block.of.bytes,
            block.of.base + LOOK_BYTES * (block.first + i) + HEAD_BYTES + COUNT_PLACE,
        ),
        None => given,
    }
}

// Puts the counts of the looks that are planted into the list.
fn put_counts(forest: &Forest<Block, BRANCHES>, counts: &mut [u16])
    requires { Counted forest.now.keys.now.of.bytes.now forest.now.keys.now.first counts.old }
    ensures { counts.new ≡ filled (count_after forest.now.keys.now.of.bytes.now (forest.now.keys.now.first + forest.now.count)) (edges forest.now.keys.now.of.bytes.now) counts.old }
{
    let block = forest.keys;
    let mut at = block.of.from;
    for k in 0..block.of.edges {
        let key = key_at(block.of.bytes, at);
        let place = forest.latest(key);
        counts[k] = count_from(block, place, counts[k]);
        at = next_at(block.of.bytes, at);
    }
}

// Puts the counts of the looks of a block into the list. Keeps 136 KB on the stack.
fn replace_in(block: &Block, counts: &mut [u16])
    requires { Counted block.now.of.bytes.now block.now.first counts.old }
    ensures { counts.new ≡ filled (count_after block.now.of.bytes.now (block.now.first + block.now.count)) (edges block.now.of.bytes.now) counts.old }
{
    let mut links = [0u16; LINKS];
    let mut tops = [0u16; BLOCK];
    put_counts(
        &plant::<Block, BRANCHES>(block, &mut links, &mut tops),
        counts,
    );
}

// Puts the surviving counts in place of the edges' own.
pub(crate) fn replace(looked: &Looked, counts: &mut [u16])
    requires { Counted looked.now.bytes.now 0 counts.old }
    ensures { counts.new ≡ filled (count_after looked.now.bytes.now (looks looked.now.bytes.now)) (edges looked.now.bytes.now) counts.old }
{
    let mut m: usize = 0;
    // Stays: a while, since a block tells how far it goes.
    while m < looked.looks {
        let block = looked.block(m);
        replace_in(&block, counts);
        m += block.count;
    }
}

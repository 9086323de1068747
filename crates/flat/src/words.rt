// The words of all chains.
ghost use Rattle.std.specs.Prelude.{◌≡◌, ◌+◌, ◌≤◌, length, get_or};
ghost use Rattle.std.proofs.lemmas.List.Edits.{sets};
ghost use Rattle.counting.specs.Lists.{one, values, it};
ghost use Rattle.counting.specs.work.Stored.{Stored};
ghost use Rattle.counting.specs.Stored.{filled};
ghost use Rattle.walk.specs.Darts.{half};
ghost use Rattle.flat.specs.Chain.{all_chain_words};
ghost use Rattle.flat.specs.work.Work.{MarkedOn, DartsFrom, words_by};
ghost use Rattle.flat.specs.work.Along.{along, crossings_in};

use crate::CROSSING_MARKS;
use crate::walks::{Chain, Steps};

// The word for a closed chain or for an open one.
fn closed_word(closed: bool) -> u16
    ensures { result ≡ one closed }
{
    if closed { 1 } else { 0 }
}

impl<'a> Steps<'a> {
    // The crossings of m darts, from d on, written from the place at on, and marked.
    fn put_crossings(self, d: usize, m: usize, area: &mut [u16], at: usize, marks: &mut [u8])
        requires darts_from { DartsFrom (crossings_in self) (along self) d m }
        requires m_in_bounds { at + m ≤ length area.old }
        requires n_in_bounds { crossings_in self ≤ length marks.old }
        ensures area_after { area.new ≡ sets area.old at (values (λ i. half (it (along self.entry) i d)) m) }
        ensures marked_on { MarkedOn (crossings_in self.entry) (along self.entry) d m marks.old marks.new }
    {
        let mut e = d;
        for i in 0..m {
            area[at + i] = (e / 2) as u16;
            marks[e / 2] = 1;
            e = self.next[e] as usize;
        }
    }

    // The words of a chain, written from the place at on, and its crossings marked; the place after the words.
    fn put_chain(self, c: Chain, area: &mut [u16], at: usize, marks: &mut [u8]) -> usize
        requires darts_from { DartsFrom (crossings_in self) (along self) c.start c.size }
        requires size_le_n { c.size ≤ crossings_in self }
        requires start_in_bounds { at + length (words_by (crossings_in self) (along self) c) ≤ length area.old }
        requires n_in_bounds { crossings_in self ≤ length marks.old }
        ensures stored { Stored area.old at (words_by (crossings_in self.entry) (along self.entry) c) area.new result }
        ensures marked_on { MarkedOn (crossings_in self.entry) (along self.entry) c.start c.size marks.old marks.new }
    {
        let m = c.size;
        area[at] = closed_word(c.closed);
        area[at + 1] = m as u16;
        self.put_crossings(c.start, m, area, at + 2, marks);
        at + 2 + m
    }

    // The words of all chains, written from the front on; their number. No word is above 65,535. Keeps 64 KB on the stack.
    pub(crate) fn put_words(self, area: &mut [u16]) -> usize
        requires { length (all_chain_words (crossings_in self) (along self)) ≤ length area.old }
        ensures area_after { area.new ≡ sets area.old 0 (all_chain_words (crossings_in self.entry) (along self.entry)) }
        ensures value { result ≡ length (all_chain_words (crossings_in self.entry) (along self.entry)) }
    {
        let mut marks = [0u8; CROSSING_MARKS];
        let mut at = 0;
        for p in 0..self.next.len() / 2 {
            if marks[p] != 0 {
                continue;
            }
            let Some(c) = self.chain_at(p) else {
                continue;
            };
            at = self.put_chain(c, area, at, &mut marks);
        }
        at
    }
}

// The words, copied to the front of the area.
pub(crate) fn copy_words(words: &[u16], area: &mut [u32])
    requires { length words.now ≤ length area.old }
    ensures { area.new ≡ filled (λ i. get_or words.now i 0) (length words.now) area.old }
{
    for i in 0..words.len() {
        area[i] = words[i] as u32;
    }
}

// Text put into an area from a place on; each function answers the place after it.
ghost use Rattle.std.specs.Prelude.{◌≡◌, ◌+◌, ◌≤◌, length};
ghost use Rattle.counting.specs.work.Stored.{Stored};
ghost use Rattle.listing.specs.work.Text.{longest, word_room};
ghost use Rattle.listing.specs.Text.{decimal, with_label, word_text};

use cell::NO_NAME;
use itoa::Buffer;

// The most digits of a number of 64 bits; and the most bytes of a word of 32 bits and the blank before it.
pub(crate) const LONGEST: usize = 20;

pub(crate) const WORD_ROOM: usize = 11;

pub(crate) fn put(out: &mut [u8], at: usize, text: &[u8]) -> usize
    requires { at + length text.now ≤ length out.old }
    ensures { Stored out.old at text.now out.new result }
{
    let end = at + text.len();
    out[at..end].copy_from_slice(text);
    end
}

// The decimal digits of a number.
fn put_number(out: &mut [u8], at: usize, n: usize) -> usize
    requires { at + length (decimal n) ≤ length out.old }
    ensures { Stored out.old at (decimal n) out.new result }
{
    put(out, at, Buffer::new().format(n).as_bytes())
}

// A label and a number.
pub(crate) fn put_named(out: &mut [u8], at: usize, label: &[u8], n: usize) -> usize
    requires { at + (length label.now + longest) ≤ length out.old }
    ensures stored { Stored out.old at (with_label label.now n) out.new result }
    ensures few { result ≤ at + (length label.now + longest) }
{
    let end = put(out, at, label);
    put_number(out, end, n)
}

// A blank and a word; a dash for the word that stands for none.
pub(crate) fn put_word(out: &mut [u8], at: usize, word: u32) -> usize
    requires { at + word_room ≤ length out.old }
    ensures stored { Stored out.old at (word_text word) out.new result }
    ensures few { result ≤ at + word_room }
{
    if word == NO_NAME {
        return put(out, at, b" -");
    }
    let end = put(out, at, b" ");
    put_number(out, end, word as usize)
}

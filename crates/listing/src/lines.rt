// The lines of a listing.
ghost use Rattle.std.specs.Prelude.{◌+◌, ◌*◌, ◌≤◌, length};
ghost use Rattle.answer.specs.Refusal.{row_number};
ghost use Rattle.counting.specs.Lists.{over};
ghost use Rattle.counting.specs.work.Stored.{Stored};
ghost use Rattle.cell.specs.Words.{word_count};
ghost use Rattle.listing.specs.work.Text.{word_room, head_room, line_room};
ghost use Rattle.listing.specs.Text.{refused_line, head, word_at, line};

use crate::text::{LONGEST, WORD_ROOM, put, put_named, put_word};
use answer::Refusal;
use cell::WORD_COUNT;

// The most bytes of the first line: 35 of labels, four numbers and a newline; and of a triangle's line.
pub(crate) const HEAD_ROOM: usize = 35 + 4 * LONGEST + 1;

pub(crate) const LINE_ROOM: usize = 1 + WORD_COUNT * WORD_ROOM + 1;

// The line of a refusal, at the front.
pub(crate) fn put_refused(out: &mut [u8], refusal: Refusal) -> usize
    requires { head_room ≤ length out.old }
    ensures stored { Stored out.old 0 (refused_line (row_number refusal.row) refusal.place) out.new result }
    ensures few { result ≤ head_room }
{
    let a = put_named(out, 0, b"refused ", refusal.row.number() as usize);
    let b = put_named(out, a, b" at ", refusal.place);
    put(out, b, b"\n")
}

// The first line of a mesh's listing, at the front.
pub(crate) fn put_head(
    out: &mut [u8],
    cells: usize,
    edges: usize,
    crossings: u32,
    triangles: u64,
) -> usize
    requires { head_room ≤ length out.old }
    ensures stored { Stored out.old 0 (head cells edges crossings triangles) out.new result }
    ensures few { result ≤ head_room }
{
    let a = put_named(out, 0, b"cells ", cells);
    let b = put_named(out, a, b" edges ", edges);
    let c = put_named(out, b, b" crossings ", crossings as usize);
    let d = put_named(out, c, b" triangles ", triangles as usize);
    put(out, d, b"\n")
}

// The eleven words of triangle t.
fn put_words(out: &mut [u8], at: usize, area: &[u32], t: usize) -> usize
    requires { (at + word_count * word_room ≤ length out.old) × (word_count * t + word_count ≤ length area.now) }
    ensures stored { Stored out.old at (over (word_at area.now t) word_count 0) out.new result }
    ensures few { result ≤ at + word_count * word_room }
{
    let mut end = at;
    for j in 0..WORD_COUNT {
        end = put_word(out, end, area[WORD_COUNT * t + j]);
    }
    end
}

// The line of triangle t.
fn put_line(out: &mut [u8], at: usize, area: &[u32], t: usize) -> usize
    requires { (at + line_room ≤ length out.old) × (word_count * t + word_count ≤ length area.now) }
    ensures stored { Stored out.old at (line area.now t) out.new result }
    ensures few { result ≤ at + line_room }
{
    let a = put(out, at, b"T");
    let b = put_words(out, a, area, t);
    put(out, b, b"\n")
}

// The lines of the first n triangles.
pub(crate) fn put_lines(out: &mut [u8], at: usize, area: &[u32], n: u64) -> usize
    requires { (at + line_room * n ≤ length out.old) × (word_count * n ≤ length area.now) }
    ensures stored { Stored out.old at (over (line area.now) n 0) out.new result }
    ensures few { result ≤ at + line_room * n }
{
    let mut end = at;
    for t in 0..n as usize {
        end = put_line(out, end, area, t);
    }
    end
}

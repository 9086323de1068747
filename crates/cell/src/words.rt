// Triangles as words in an area.
ghost use Rattle.std.specs.Prelude.{◌≡◌, ◌+◌, ◌≤◌, [], ◌∷◌, length, get_or};
ghost use Rattle.std.proofs.lemmas.List.Edits.{sets};
ghost use Rattle.cell.specs.Words.{word_count, corner_word, side_words, corner_words, words};

use super::{Corner, Side, Triangle};

// The words of a triangle.
pub const WORD_COUNT: usize = 11;

// The word that stands for no crossing and no face.
// Stays: a number, as the C interface has it.
pub const NO_NAME: u32 = 4294967295;

fn corner_word(x: Corner) -> u32
    ensures { result ≡ corner_word x }
{
    match x {
        Corner::Crossing(g) => g,
        Corner::Middle => NO_NAME,
    }
}

fn put_two(area: &mut [u32], at: usize, x: u32, y: u32)
    requires { at + 2 ≤ length area.old }
    ensures { area.new ≡ sets area.old at (x ∷ y ∷ []) }
{
    area[at] = x;
    area[at + 1] = y;
}

fn put_side(area: &mut [u32], at: usize, s: Side)
    requires { at + 2 ≤ length area.old }
    ensures { area.new ≡ sets area.old at (side_words s) }
{
    match s {
        Side::Segment(f, g) => put_two(area, at, f, g),
        Side::Inner(k) => put_two(area, at, NO_NAME, k),
    }
}

fn put_corners(area: &mut [u32], at: usize, t: Triangle)
    requires { at + 3 ≤ length area.old }
    ensures { area.new ≡ sets area.old at (corner_words t) }
{
    put_two(area, at, corner_word(t.corner0), corner_word(t.corner1));
    area[at + 2] = corner_word(t.corner2);
}

// Writes a triangle's words from index `at` on.
pub(crate) fn put(area: &mut [u32], at: usize, t: Triangle)
    requires { at + word_count ≤ length area.old }
    ensures { area.new ≡ sets area.old at (words t) }
{
    put_two(area, at, t.cell, t.p0);
    put_corners(area, at + 2, t);
    put_side(area, at + 5, t.side0);
    put_side(area, at + 7, t.side1);
    put_side(area, at + 9, t.side2);
}

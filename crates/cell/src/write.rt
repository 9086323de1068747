// The triangles of a recorded loop, written as words.
ghost use Rattle.std.specs.Prelude.{◌≡◌, true, ◌+◌, ◌*◌, ◌≤◌, length};
ghost use Rattle.std.proofs.lemmas.List.Edits.{sets};
ghost use Rattle.cell.specs.Words.{word_count, all_words};
ghost use Rattle.manifold.specs.Shape.{shape_of, many_of};
ghost use Rattle.cell.specs.work.Traced.{RecordedLoop, traced_triangles};

use super::Cell;
use super::make::{many, triangle_of};
use super::words::{WORD_COUNT, put};

// Writes the triangles of a recorded loop of n from index `at` on, and answers the next index.
pub(crate) fn write_loop(
    c: Cell,
    halves: &[u8],
    points: &[u32],
    n: usize,
    two: bool,
    area: &mut [u32],
    at: usize,
) -> usize
    requires recorded_loop { RecordedLoop halves.now points.now n }
    requires n_value { two ≡ true → n ≡ 4 }
    requires n_in_bounds { at + word_count * many_of (shape_of n two) n ≤ length area.old }
    ensures { (result ≡ at + word_count * many_of (shape_of n two) n) × (area.new ≡ sets area.old at (all_words (traced_triangles c halves.now points.now n two))) }
{
    let m = many(n, two);
    let mut i = at;
    for k in 0..m {
        let t = triangle_of(c, halves, points, n, two, k);
        put(area, i, t);
        i += WORD_COUNT;
    }
    i
}

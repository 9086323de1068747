// What is drawn of all cells of a grid's tables.
ghost use Rattle.std.specs.Prelude.{◌≡◌, ◌+◌, ◌-◌, ◌*◌, ◌≤◌, length};
ghost use Rattle.counting.specs.Lists.{total};
ghost use Rattle.counting.specs.Stored.{stored_in};
ghost use Rattle.counting.specs.work.Stored.{Stored};
ghost use Rattle.cell.specs.Words.{word_count, all_words};
ghost use Rattle.cell.specs.claims.Table.{drawn_cells};
ghost use Rattle.cell.specs.work.Table.{most_triangles};
ghost use Rattle.cell.specs.work.Tables.{cell_in, drawn_in, triangles_all};
ghost use Rattle.split.specs.Parts.{drawn_triangles};
ghost use Rattle.split.specs.work.Table.{most_drawn};
ghost use Rattle.split.specs.work.Gains.{AreSums};
ghost use Rattle.split.specs.work.Tables.{NextSplit, SumsOf, splits_in_cell, splits_made, triangles_drawn, words_of_loops};

use super::{CellSums, DrawnSums, SplitCell, put_cell};
use cell::{Tables, WORD_COUNT};
use slots::MOST_EDGES;

// What the cells come to. At most `crossings + more` triangles are drawn of them.
pub fn sums_of(cells: &[u16], counts: &[u16], sides: &[u16; MOST_EDGES]) -> CellSums
    ensures { AreSums counts.now sides.now (drawn_cells cells.now) result.crossings result.splits result.more }
{
    let n = cell::drawn(cells);
    let mut crossings: usize = 0;
    let mut splits: u64 = 0;
    let mut more: u64 = 0;
    for c in 0..n {
        let six = cell::counts_at(counts, sides, c);
        let g = booking::gain_of(six);
        crossings += booking::crossings_in(six);
        splits += g.splits as u64;
        more += g.more;
    }
    CellSums {
        crossings,
        splits,
        more,
    }
}

// The next cell that is split, from cell c on and below n.
pub(crate) fn split_from(tables: Tables, c: usize, n: usize) -> Option<SplitCell>
    requires { c ≤ n }
    ensures { NextSplit tables.entry c n result }
{
    for e in c..n {
        let splits = booking::gain_of(cell::counts_at(tables.counts, tables.sides, e)).splits;
        if splits != 0 {
            return Some(SplitCell { index: e, splits });
        }
    }
    None
}

// The same where n cells make so many splits, and at once where they make none.
fn next_split(tables: Tables, c: usize, n: usize, splits: u64) -> Option<SplitCell>
    requires { (c ≤ n) × (splits ≡ total (splits_in_cell tables) n 0) }
    ensures { NextSplit tables.entry c n result }
{
    if splits == 0 {
        return None;
    }
    split_from(tables, c, n)
}

// Writes the words of what is drawn of a cell that is split: they have room from index `at` on. Answers the next index.
fn put_at(tables: Tables, s: SplitCell, area: &mut [u32], at: usize) -> usize
    requires splits_value { s.splits ≡ splits_in_cell tables s.index }
    requires s_in_bounds { at + length (all_words (drawn_triangles (cell_in tables s.index))) ≤ length area.old }
    ensures { Stored area.old at (all_words (drawn_triangles (cell_in tables.entry s.index))) area.new result }
{
    let c = cell::cell_at(tables, s.index);
    put_cell(c, s.splits, area, at)
}

// Writes the words of the triangles of the loops of the cells from c up to `end`: they have room from index `at` on. Answers the next index.
fn put_stretch(tables: Tables, c: usize, end: usize, area: &mut [u32], at: usize) -> usize
    requires { at + length (words_of_loops tables c (end - c)) ≤ length area.old }
    ensures { Stored area.old at (words_of_loops tables.entry c (end - c)) area.new result }
{
    direct::write_cells(tables, c, end, area, at)
}

// Writes the words of what is drawn of all cells, which have room in the area, from its front on, and answers the next index. The cells make so many splits.
fn put_cells(tables: Tables, splits: u64, area: &mut [u32]) -> usize
    requires splits_value { splits ≡ total (splits_in_cell tables) (drawn_in tables) 0 }
    requires starts_in_bounds { word_count * length (triangles_drawn tables) ≤ length area.old }
    ensures { Stored area.old 0 (all_words (triangles_drawn tables.entry)) area.new result }
{
    let n = cell::drawn(tables.cells);
    let mut i: usize = 0;
    let mut c: usize = 0;
    while let Some(s) = next_split(tables, c, n, splits) {
        i = put_stretch(tables, c, s.index, area, i);
        i = put_at(tables, s, area, i);
        c = s.index + 1;
    }
    put_stretch(tables, c, n, area, i)
}

// Writes the words of the triangles that are drawn of all cells, which have room in the area and make so many splits, from its front on, and answers how many
// triangles there are.
fn write_all(tables: Tables, splits: u64, area: &mut [u32]) -> usize
    requires splits_value { splits ≡ total (splits_in_cell tables) (drawn_in tables) 0 }
    requires starts_in_bounds { word_count * length (triangles_drawn tables) ≤ length area.old }
    ensures { (result ≡ length (triangles_drawn tables.entry)) × (area.new ≡ stored_in area.old 0 (all_words (triangles_drawn tables.entry))) }
{
    put_cells(tables, splits, area) / WORD_COUNT
}

// How many triangles the loops of all cells have. Not inlined, so that the arrays of its walks are gone before those of the writer are there.
#[inline(never)]
fn count_all(tables: Tables) -> usize
    ensures { (result ≡ length (triangles_all tables.entry)) × (result ≤ most_triangles) }
{
    booking::count_all(tables)
}

// The same where they have room; else nothing is written. The cells come to `s`: no loops have more triangles than crossings, so that the triangles are
// counted first only where the area has not room for so many.
fn draw_all(tables: Tables, s: CellSums, area: &mut [u32]) -> usize
    requires { SumsOf tables s.crossings s.splits s.more }
    ensures { (result ≡ length (triangles_drawn tables.entry)) × (area.new ≡ stored_in area.old 0 (all_words (triangles_drawn tables.entry))) }
{
    let more = s.more as usize;
    if area.len() < WORD_COUNT * (s.crossings + more) {
        let t = count_all(tables) + more;
        if area.len() < WORD_COUNT * t {
            return t;
        }
    }
    write_all(tables, s.splits, area)
}

// Writes the words of the triangles that are drawn of all cells of the tables from the front of the area on, where they have room there, and answers how
// many triangles and how many splits there are. No cell that is split is walked to be counted. About 178 KB of stack, and about 430 bytes for each split
// that is nested in another, of which there are at most 2,044.
pub fn draw(tables: Tables, area: &mut [u32]) -> DrawnSums
    ensures triangles_value { (result.triangles ≡ length (triangles_drawn tables.entry)) × (result.splits ≡ splits_made tables.entry) × (result.triangles ≤ most_drawn) }
    ensures area_after { area.new ≡ stored_in area.old 0 (all_words (triangles_drawn tables.entry)) }
{
    let s = sums_of(tables.cells, tables.counts, tables.sides);
    let triangles = draw_all(tables, s, area);
    DrawnSums {
        triangles,
        splits: s.splits as u32,
    }
}

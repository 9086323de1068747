// A grid cut into runs of cells (02, W13): the mesh of one run as a grid of its own, and the meshes of all runs joined in the names of the whole.
#![tactic(auto)]

ghost use Rattle.std.specs.Prelude.{◌≡◌, ℕ, ◌≤◌, ◌<◌, length, get_or};
ghost use Rattle.counting.specs.Stored.{stored_in};
ghost use Rattle.counting.specs.work.Stored.{Stored};
ghost use Rattle.cell.specs.Words.{all_words};
ghost use Rattle.grid.specs.Lent.{lent};
ghost use Rattle.split.specs.work.Table.{most_drawn};
ghost use Rattle.split.specs.work.Tables.{triangles_drawn, splits_made};
ghost use Rattle.mesh.specs.Numbers.{mesh_numbers};
ghost use Rattle.layers.specs.Runs.{run_renamed};
ghost use Rattle.layers.specs.Cuts.{joined_mesh};
ghost use Rattle.layers.specs.Done.{RunDone, JoinedDone};
ghost use Rattle.layers.specs.work.Work.{lacking_in, RunDrawn};
ghost use Rattle.layers.specs.work.Whole.{WholeTabled, WholeRun, WholeJoinableRun, WholeJoinable};

use answer::{Refusal, Row};
use cell::{Tables, WORD_COUNT};
use grid::{Grid, MOST_EDGES, MOST_SLOTS};
use mesh::Mesh;
use split::DrawnSums;

mod cuts;
mod tables;
mod words;

use tables::MARKS;
use words::CROSSINGS;

// The whole grid as it is lent, with the names of its faces and the edges of its sides.
#[derive(Clone, Copy)]
struct Whole<'a> {
    grid: Grid<'a>,
    names: &'a [u16; MOST_SLOTS],
    sides: &'a [u16; MOST_EDGES],
}

// A run of cells: the first of them, how many they are, and what their edges are marked with.
#[derive(Clone, Copy)]
struct Span {
    from: usize,
    size: usize,
    mark: u16,
}

// Writes the mesh of a run, in its own names, from the front of the area on where it has room there, and answers how many triangles and splits it has.
// 112 KB of stack for the run's tables, besides what `split::draw` keeps.
fn draw_run(whole: Whole, run: Span, area: &mut [u32]) -> DrawnSums
    requires run { WholeRun whole run.from run.size }
    requires mark { 0 < run.mark }
    ensures { RunDrawn (lent whole.entry.grid) run.from run.size area.old area.new result.triangles result.splits }
{
    let mut names = [0u16; MOST_SLOTS];
    let mut sides = [0u16; MOST_EDGES];
    let mut starts = [0u32; MOST_EDGES];
    let mut used = [0u16; MARKS];
    run.copy(whole.names, whole.sides, &mut names, &mut sides);
    run.start(whole.grid.counts, whole.sides, &mut used, &mut starts);
    let first = 4 * run.from;
    let end = first + 4 * run.size;
    let tables = Tables {
        cells: &whole.grid.cells[first..end],
        counts: whole.grid.counts,
        names: &names,
        sides: &sides,
        starts: &starts,
    };
    split::draw(tables, area)
}

// The mesh of one run, from the tables of the whole: rows 25, 26 and 12, or the words.
fn cut_run(whole: Whole, cuts: &[u16], run: usize, area: &mut [u32]) -> Result<Mesh, Refusal>
    requires { WholeTabled whole }
    ensures { RunDone (lent whole.entry.grid) cuts.now run area.old area.new (mesh_numbers result) }
{
    let n = whole.grid.cells.len() / 4;
    if let Some(bad) = cuts::first_bad(cuts, n) {
        return Err(Row::Cuts.at(bad));
    }
    if cuts.len() < run {
        return Err(Row::NoRun.at(run));
    }
    let span = Span::of(cuts, n, run);
    let d = draw_run(whole, span, area);
    if area.len() < WORD_COUNT * d.triangles {
        return Err(Row::MeshArea.at(d.triangles));
    }
    Ok(Mesh {
        triangles: d.triangles as u64,
        splits: d.splits,
    })
}

// The mesh of one run, asked for by its number from 0, as a grid of its own. Keeps 40 KB on the stack for the tables of the whole and 112 KB for the run's,
// besides what `grid::lay` and then `split::draw` keep.
pub fn mesh_run(grid: Grid, cuts: &[u16], run: usize, area: &mut [u32]) -> Result<Mesh, Refusal>
    ensures { RunDone (lent grid.entry) cuts.now run area.old area.new (mesh_numbers result) }
{
    let mut names = [0u16; MOST_SLOTS];
    let mut sides = [0u16; MOST_EDGES];
    grid::lay(grid, &mut names, &mut sides)?;
    let whole = Whole {
        grid,
        names: &names,
        sides: &sides,
    };
    cut_run(whole, cuts, run, area)
}

// Writes what is drawn of the cells of the tables from index `at` on, where it has room there, and answers how many triangles and splits it has.
fn draw_at(tables: Tables, area: &mut [u32], at: usize) -> DrawnSums
    requires { at ≤ length area.old }
    ensures triangles_value { (result.triangles ≡ length (triangles_drawn tables.entry)) × (result.splits ≡ splits_made tables.entry) × (result.triangles ≤ most_drawn) }
    ensures area_after { area.new ≡ stored_in area.old at (all_words (triangles_drawn tables.entry)) }
{
    split::draw(tables, &mut area[at..])
}

// Writes the mesh of one run from index `at` on, in its own names, then puts these into those of the whole, and answers the next index. The arrays are for
// the run's tables; all marks in `used` are below the run's.
fn join_run(
    whole: Whole,
    run: Span,
    names: &mut [u16; MOST_SLOTS],
    sides: &mut [u16; MOST_EDGES],
    starts: &mut [u32; MOST_EDGES],
    used: &mut [u16; MARKS],
    over: &mut [u16; CROSSINGS],
    area: &mut [u32],
    at: usize,
) -> usize
    requires { WholeJoinableRun whole run.from run.size run.mark at (length area.old) used.old }
    ensures marks { (e : ℕ) → get_or used.new e 0 ≤ run.mark }
    ensures stored { Stored area.old at (all_words (run_renamed (lent whole.entry.grid) run.from run.size)) area.new result }
{
    run.copy(whole.names, whole.sides, names, sides);
    run.start(whole.grid.counts, whole.sides, used, starts);
    let first = 4 * run.from;
    let end = first + 4 * run.size;
    let tables = Tables {
        cells: &whole.grid.cells[first..end],
        counts: whole.grid.counts,
        names,
        sides,
        starts,
    };
    let d = draw_at(tables, area, at);
    run.number_sides(
        whole.grid.counts,
        whole.grid.starts,
        whole.sides,
        starts,
        over,
    );
    words::put_over(whole.names, over, run.from, area, at, d.triangles);
    at + WORD_COUNT * d.triangles
}

// Writes the meshes of all runs, one after the other, in the names of the whole, and answers the next index. They have room in the area.
fn join_runs(whole: Whole, cuts: &[u16], area: &mut [u32]) -> usize
    requires { WholeJoinable whole cuts.now (length area.old) }
    ensures { Stored area.old 0 (all_words (joined_mesh (lent whole.entry.grid) cuts.now)) area.new result }
{
    let mut names = [0u16; MOST_SLOTS];
    let mut sides = [0u16; MOST_EDGES];
    let mut starts = [0u32; MOST_EDGES];
    let mut used = [0u16; MARKS];
    let mut over = [0u16; CROSSINGS];
    let mut i = 0;
    for r in 0..cuts.len() + 1 {
        let run = Span::of(cuts, whole.grid.cells.len() / 4, r);
        i = join_run(
            whole,
            run,
            &mut names,
            &mut sides,
            &mut starts,
            &mut used,
            &mut over,
            area,
            i,
        );
    }
    i
}

// How many triangles are drawn of the cells of the tables where they have no room in so many words. They are no more than `most`, and counted only where so
// many have no room; the one word that is lent for it has room for none.
fn lacking(tables: Tables, most: usize, room: usize) -> Option<usize>
    requires { (length (triangles_drawn tables) ≤ most) × (most ≤ most_drawn) }
    ensures { result ≡ lacking_in room (length (triangles_drawn tables.entry)) }
{
    if WORD_COUNT * most <= room {
        return None;
    }
    let mut word = [0u32; 1];
    let d = split::draw(tables, &mut word);
    if room < WORD_COUNT * d.triangles {
        Some(d.triangles)
    } else {
        None
    }
}

// All runs joined, from the tables of the whole: rows 25 and 12, or the words. The triangles are as many as those of all cells, whatever their names.
fn cut_joined(whole: Whole, cuts: &[u16], area: &mut [u32]) -> Result<Mesh, Refusal>
    requires { WholeTabled whole }
    ensures { JoinedDone (lent whole.entry.grid) cuts.now area.old area.new (mesh_numbers result) }
{
    if let Some(bad) = cuts::first_bad(cuts, whole.grid.cells.len() / 4) {
        return Err(Row::Cuts.at(bad));
    }
    let tables = Tables {
        cells: whole.grid.cells,
        counts: whole.grid.counts,
        names: whole.names,
        sides: whole.sides,
        starts: whole.grid.starts,
    };
    let s = split::sums_of(tables.cells, tables.counts, tables.sides);
    let most = s.crossings + s.more as usize;
    if let Some(n) = lacking(tables, most, area.len()) {
        return Err(Row::MeshArea.at(n));
    }
    let end = join_runs(whole, cuts, area);
    Ok(Mesh {
        triangles: (end / WORD_COUNT) as u64,
        splits: s.splits as u32,
    })
}

// All runs joined, in the names of the whole. Keeps 40 KB on the stack for the tables of the whole and 240 KB for a run's, besides what `grid::lay` and then
// `split::draw` keep.
pub fn mesh_joined(grid: Grid, cuts: &[u16], area: &mut [u32]) -> Result<Mesh, Refusal>
    ensures { JoinedDone (lent grid.entry) cuts.now area.old area.new (mesh_numbers result) }
{
    let mut names = [0u16; MOST_SLOTS];
    let mut sides = [0u16; MOST_EDGES];
    grid::lay(grid, &mut names, &mut sides)?;
    let whole = Whole {
        grid,
        names: &names,
        sides: &sides,
    };
    cut_joined(whole, cuts, area)
}

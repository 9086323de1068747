// The grid check: cells, edges, counts and starts of a grid; the calls that open a grid and set a count.
#![tactic(auto)]

ghost use Rattle.std.specs.Prelude.{◌≡◌, [], ◌∷◌, false, ◌*◌, ◌<◌, ◌≤◌, length};
ghost use Rattle.grid.specs.Grid.{grid_of, cell_count, crossings};
ghost use Rattle.slots.specs.Limits.{most_cells, most_slots};
ghost use Rattle.slots.specs.work.Limits.{most_edges};
ghost use Rattle.grid.specs.Rows.{grid_answer, repeats, too_many};
ghost use Rattle.counting.specs.work.Search.{found};
ghost use Rattle.grid.specs.Check.{check_numbers};
ghost use Rattle.grid.specs.Lent.{lent};
ghost use Rattle.grid.specs.work.Lent.{rebuilt};
ghost use Rattle.grid.specs.work.Held.{ComparableBy, EdgingBy, LowChained, SidingBy, Sized};
ghost use Rattle.answer.specs.Answer.{result_of};
ghost use Rattle.answer.specs.Rows.{whole, answer_of};
ghost use Rattle.grid.specs.work.Shared.{capped};
ghost use Rattle.grid.specs.work.Tables.{Laid};
ghost use Rattle.grid.specs.Opening.{open_answer, open_starts};
ghost use Rattle.grid.specs.Setting.{set_answer, set_counts, set_starts};
ghost use Rattle.grid.specs.work.Work.{RisingCells, Early, listed_at, answer_from, answer_with, Celling, Numbering, Using, Linkable, Blank, Worked, WhereAccepted, Changeable, Changed};
ghost use Rattle.counting.specs.work.Tables.{Table};
ghost use Rattle.grid.specs.work.Walks.{Fresh};

use answer::{Refusal, Row};
use scratch::{Chain, EdgeTables, NodeTables, SlotTables};

mod cells;
mod edges;
mod links;
mod numbering;
mod runs;
mod scratch;
mod shared;
mod tables;

pub use edges::{edge_order, row_18};
pub use shared::{earlier_places, edge_places};
pub use slots::{HIGHEST_NODE, MOST_CELLS, MOST_COUNT, MOST_CROSSINGS, MOST_EDGES, MOST_SLOTS};

const TOO_MANY: u32 = MOST_CROSSINGS + 1;

const NODES: usize = HIGHEST_NODE + 1;

// So many cells have small tables, with so many slots and edges.
const FEW_CELLS: usize = 64;

const FEW_SLOTS: usize = 4 * FEW_CELLS;

const FEW_EDGES: usize = 6 * FEW_CELLS;

// Labels are numbers of nodes, from 1 on.
const FEW_LABELS: usize = FEW_SLOTS + 1;

const MOST_LABELS: usize = MOST_SLOTS + 1;

// Numbers of edges, from 1 on, and one for those beyond.
const FEW_TOPS: usize = FEW_EDGES + 2;

const MOST_TOPS: usize = MOST_EDGES + 2;

// A grid's lists, as lent: four nodes to a cell, two to an edge, a count to an edge, and its start.
#[derive(Clone, Copy)]
pub struct Grid<'a> {
    pub cells: &'a [u16],
    pub edges: &'a [u16],
    pub counts: &'a [u16],
    pub starts: &'a [u32],
}

// The sum of the counts; 65,536 where it is more than 65,535.
// Stays: answers every input by a number, beside `count_crossings`, which can refuse: a call that could not fail still cannot (DECISIONS 14.1).
pub fn total(counts: &[u16]) -> u32
    ensures { result ≡ capped counts.now }
{
    let mut sum: u32 = 0;
    for e in 0..counts.len() {
        sum += counts[e] as u32;
        if MOST_CROSSINGS < sum {
            return TOO_MANY;
        }
    }
    sum
}

// Row 10, or the number of crossings.
pub fn count_crossings(counts: &[u16]) -> Result<u32, Refusal>
    ensures { check_numbers result ≡ answer_of (whole 10 (too_many counts.now) ∷ []) (result_of (crossings counts.now ∷ [])) }
{
    let mut sum: u32 = 0;
    for count in counts {
        sum += *count as u32;
        if MOST_CROSSINGS < sum {
            return Err(Row::Crossings.at(0));
        }
    }
    Ok(sum)
}

// Rows 9 and 10.
// Stays: near and sides are two slices, since near is whole from row 4 on, and only read, while sides is written for row 7; no function reads both but row 9.
fn last_rows<const EDGES: usize, const CELLS: usize>(
    grid: Grid,
    near: &[u16],
    sides: &[u16],
    by_edge: &mut EdgeTables<EDGES, CELLS>,
) -> Result<u32, Refusal>
    requires { Linkable (rebuilt grid) near.now sides.now by_edge.old.top by_edge.old.degree by_edge.old.marks }
    ensures { check_numbers result ≡ answer_from 9 (rebuilt grid.entry) }
{
    if let Some(e) = links::row_9(
        grid,
        near,
        sides,
        &by_edge.top,
        &by_edge.degree,
        &mut by_edge.marks,
    ) {
        return Err(Row::EdgeUnlinked.at(e));
    }
    count_crossings(grid.counts)
}

// Row 8, and those after it, where every edge of a cell is listed.
fn used_rows<const EDGES: usize, const CELLS: usize>(
    grid: Grid,
    near: &[u16],
    sides: &[u16],
    by_edge: &mut EdgeTables<EDGES, CELLS>,
) -> Result<u32, Refusal>
    requires { Using (rebuilt grid) near.now sides.now by_edge.old.top by_edge.old.degree by_edge.old.marks }
    ensures result_value { check_numbers result ≡ answer_from 8 (rebuilt grid.entry) }
    ensures where_accepted { WhereAccepted result (Table (listed_at (rebuilt grid.entry)) (6 * cell_count grid.entry.cells.now) sides.now) }
{
    if let Some(e) = edges::row_8(grid, sides, &by_edge.top) {
        return Err(Row::EdgeStray.at(e));
    }
    last_rows(grid, near, sides, by_edge)
}

// Rows 7 and 8, and those after them.
fn side_rows<const LABELS: usize, const CELLS: usize, const EDGES: usize>(
    grid: Grid,
    near: &[u16],
    by_node: &NodeTables<LABELS, CELLS>,
    by_edge: &mut EdgeTables<EDGES, CELLS>,
    sides: &mut [u16],
) -> Result<u32, Refusal>
    requires { SidingBy (rebuilt grid) near.now by_node.now by_edge.old sides.old }
    ensures result_value { check_numbers result ≡ answer_from 7 (rebuilt grid.entry) }
    ensures where_accepted { WhereAccepted result (Table (listed_at (rebuilt grid.entry)) (6 * cell_count grid.entry.cells.now) sides.new) }
{
    runs::place_sides(
        grid.cells,
        grid.edges,
        grid.counts.len(),
        by_node,
        &mut by_edge.tab,
        sides,
    );
    if let Some(c) = edges::row_7(grid.cells, sides, &mut by_edge.top, &mut by_edge.degree) {
        return Err(Row::EdgeMissing.at(c));
    }
    used_rows(grid, near, sides, by_edge)
}

// Rows 6 and 18, and those after them.
fn edge_rows<const LABELS: usize, const CELLS: usize, const EDGES: usize>(
    grid: Grid,
    near: &[u16],
    by_node: &NodeTables<LABELS, CELLS>,
    by_edge: &mut EdgeTables<EDGES, CELLS>,
    sides: &mut [u16],
) -> Result<u32, Refusal>
    requires { EdgingBy (rebuilt grid) near.now by_node.now by_edge.old sides.old }
    ensures result_value { check_numbers result ≡ answer_from 6 (rebuilt grid.entry) }
    ensures where_accepted { WhereAccepted result (Table (listed_at (rebuilt grid.entry)) (6 * cell_count grid.entry.cells.now) sides.new) }
{
    if let Some(e) = edges::row_6(grid.edges, grid.counts) {
        return Err(Row::EdgeOrder.at(e));
    }
    if let Some(e) = edges::row_18(grid.counts) {
        return Err(Row::Count.at(e));
    }
    side_rows(grid, near, by_node, by_edge, sides)
}

// Row 4 by the cells' numbers.
fn crowded_row_4<const SLOTS: usize, const LABELS: usize, const CELLS: usize>(
    cells: &[u16],
    many: usize,
    chain: &Chain<LABELS, CELLS>,
    by_slot: &mut SlotTables<SLOTS, LABELS>,
) -> Option<usize>
    requires low_chains { LowChained cells.now many chain.now }
    requires comparable { ComparableBy cells.now by_slot.old }
    ensures { result ≡ found (repeats cells.now) (cell_count cells.now) }
{
    numbering::number_cells(cells, many, chain, by_slot);
    numbering::clear(&mut by_slot.at);
    cells::first_same(cells, &by_slot.same, &mut by_slot.at)
}

// Rows 4 and 5; where neither refuses, near has the neighbours. Only where row 5 has a place, the cells are numbered for row 4.
fn early_rows<const SLOTS: usize, const LABELS: usize, const CELLS: usize>(
    grid: Grid,
    many: usize,
    chain: &Chain<LABELS, CELLS>,
    by_slot: &mut SlotTables<SLOTS, LABELS>,
    near: &mut [u16],
) -> Result<(), Refusal>
    requires rising_cells { RisingCells grid.cells.now }
    requires low_chains { LowChained grid.cells.now many chain.now }
    requires comparable { ComparableBy grid.cells.now by_slot.old }
    requires fresh { Fresh (4 * cell_count grid.cells.now) near.old }
    ensures { Early (rebuilt grid.entry) near.new result }
{
    numbering::clear(&mut by_slot.at);
    let Some(crowded) = cells::row_5(grid.cells, &by_slot.faces, &mut by_slot.at, near) else {
        if let Some(c) = cells::row_4(grid.cells, near) {
            return Err(Row::CellRepeated.at(c));
        }
        return Ok(());
    };
    if let Some(c) = crowded_row_4(grid.cells, many, chain, by_slot) {
        return Err(Row::CellRepeated.at(c));
    }
    Err(Row::FaceCrowded.at(crowded))
}

// Rows 4 and 5, and those after them, with tables for CELLS cells.
fn table_rows<const CELLS: usize, const SLOTS: usize, const LABELS: usize, const EDGES: usize>(
    grid: Grid,
    near: &mut [u16],
    sides: &mut [u16],
) -> Result<u32, Refusal>
    requires sized { Sized CELLS SLOTS LABELS EDGES }
    requires cells_bound { cell_count grid.cells.now ≤ CELLS }
    requires numbering { Numbering (rebuilt grid) near.old sides.old }
    ensures result_value { check_numbers result ≡ answer_from 4 (rebuilt grid.entry) }
    ensures where_accepted { WhereAccepted result (Worked (rebuilt grid.entry) near.new sides.new) }
{
    let mut by_node = NodeTables::<LABELS, CELLS>::new();
    let mut by_slot = SlotTables::<SLOTS, LABELS>::new();
    let mut by_edge = EdgeTables::<EDGES, CELLS>::new();
    let many = numbering::number_faces(grid.cells, &mut by_node, &mut by_slot);
    early_rows(grid, many, &by_node.chains.first, &mut by_slot, near)?;
    edge_rows(grid, near, &by_node, &mut by_edge, sides)
}

// Row 3, and those after it.
fn cell_rows(grid: Grid, near: &mut [u16], sides: &mut [u16]) -> Result<u32, Refusal>
    requires { Celling (rebuilt grid) near.old sides.old }
    ensures result_value { check_numbers result ≡ answer_from 3 (rebuilt grid.entry) }
    ensures where_accepted { WhereAccepted result (Worked (rebuilt grid.entry) near.new sides.new) }
{
    if let Some(c) = cells::row_3(grid.cells) {
        return Err(Row::CellNodes.at(c));
    }
    if grid.cells.len() / 4 <= FEW_CELLS {
        return table_rows::<FEW_CELLS, FEW_SLOTS, FEW_LABELS, FEW_TOPS>(grid, near, sides);
    }
    table_rows::<MOST_CELLS, MOST_SLOTS, MOST_LABELS, MOST_TOPS>(grid, near, sides)
}

// All rows, where `wrong` is row 2's verdict. Where the grid is accepted, near has the neighbours and sides the edges of the cells.
fn all_rows(grid: Grid, wrong: bool, near: &mut [u16], sides: &mut [u16]) -> Result<u32, Refusal>
    requires edges_len { wrong ≡ false → length grid.edges.now ≡ 2 * length grid.counts.now }
    requires blank { cell_count grid.cells.now ≤ most_cells → Blank (cell_count grid.cells.now) near.old sides.old }
    ensures result_value { check_numbers result ≡ answer_with wrong (rebuilt grid.entry) }
    ensures where_accepted { WhereAccepted result (Worked (rebuilt grid.entry) near.new sides.new) }
{
    if cells::row_1(grid.cells) {
        return Err(Row::CellList.at(0));
    }
    if wrong {
        return Err(Row::EdgeList.at(0));
    }
    cell_rows(grid, near, sides)
}

// All rows, with two tables of these sizes.
fn sized_rows<const SLOTS: usize, const EDGES: usize>(
    grid: Grid,
    wrong: bool,
) -> Result<u32, Refusal>
    requires edges_len { wrong ≡ false → length grid.edges.now ≡ 2 * length grid.counts.now }
    requires rooms { cell_count grid.cells.now ≤ most_cells → (4 * cell_count grid.cells.now ≤ SLOTS) × (6 * cell_count grid.cells.now ≤ EDGES) }
    requires small { (SLOTS ≤ most_slots) × (EDGES ≤ most_edges) }
    ensures { check_numbers result ≡ answer_with wrong (rebuilt grid.entry) }
{
    let mut near = [0u16; SLOTS];
    let mut sides = [0u16; EDGES];
    all_rows(grid, wrong, &mut near, &mut sides)
}

// All rows, with tables of their own: few for few cells.
fn judge(grid: Grid, wrong: bool) -> Result<u32, Refusal>
    requires { wrong ≡ false → length grid.edges.now ≡ 2 * length grid.counts.now }
    ensures { check_numbers result ≡ answer_with wrong (rebuilt grid.entry) }
{
    if grid.cells.len() / 4 <= FEW_CELLS {
        return sized_rows::<FEW_SLOTS, FEW_EDGES>(grid, wrong);
    }
    sized_rows::<MOST_SLOTS, MOST_EDGES>(grid, wrong)
}

// The grid check, in time linear in the cells and the listed edges. Keeps 233 KB on the stack, with what its functions keep.
pub fn check(grid: Grid) -> Result<u32, Refusal>
    ensures { check_numbers result ≡ grid_answer (lent grid.entry) }
{
    judge(grid, edges::row_2(grid))
}

// The grid check, and where it accepts, the tables of the grid: the name of face 4 c + s of the cells, and the place in the list of edge k of cell c
// at 6 c + k. Keeps as much on the stack as `check`.
pub fn lay(
    grid: Grid,
    names: &mut [u16; MOST_SLOTS],
    sides: &mut [u16; MOST_EDGES],
) -> Result<u32, Refusal>
    ensures result_value { check_numbers result ≡ grid_answer (lent grid.entry) }
    ensures laid { Laid (lent grid.entry) names.old sides.old names.new sides.new }
{
    let n = grid.cells.len() / 4;
    let wrong = edges::row_2(grid);
    let mut across = [0u16; MOST_SLOTS];
    let mut listed = [0u16; MOST_EDGES];
    let crossings = all_rows(grid, wrong, &mut across, &mut listed)?;
    tables::write_names(4 * n, &across, names);
    tables::write_sides(6 * n, &listed, sides);
    Ok(crossings)
}

// The opening call: the check of a grid whose starts are not known, and where it accepts, the starts. Keeps as much on the stack as `check`.
pub fn open(
    cells: &[u16],
    edges: &[u16],
    counts: &[u16],
    starts: &mut [u32],
) -> Result<u32, Refusal>
    ensures result_value { check_numbers result ≡ open_answer (grid_of cells.now edges.now counts.now starts.old) }
    ensures starts_after { starts.new ≡ open_starts (grid_of cells.now edges.now counts.now starts.old) }
{
    let wrong = edges::bad_numbers(edges, counts, starts);
    let crossings = judge(
        Grid {
            cells,
            edges,
            counts,
            starts,
        },
        wrong,
    )?;
    tables::write_starts(counts, 0, 0, starts);
    Ok(crossings)
}

// The count of an edge of an accepted grid with n crossings, set; rows 21, 18 and 10.
fn change(
    counts: &mut [u16],
    starts: &mut [u32],
    n: u32,
    edge: usize,
    count: u16,
) -> Result<u32, Refusal>
    requires { Changeable counts.old starts.old n }
    ensures { Changed counts.old starts.old edge count counts.new starts.new (check_numbers result) }
{
    if counts.len() <= edge {
        return Err(Row::NoEdge.at(edge));
    }
    if MOST_COUNT < count {
        return Err(Row::Count.at(edge));
    }
    let m = n - counts[edge] as u32 + count as u32;
    if MOST_CROSSINGS < m {
        return Err(Row::Crossings.at(0));
    }
    let s = starts[edge];
    counts[edge] = count;
    tables::write_starts(counts, edge, s, starts);
    Ok(m)
}

// The setting call: the grid check; then the count of an edge is set, and the starts of all later edges are brought up to date. Keeps as much on the
// stack as `check`.
pub fn set_count(
    cells: &[u16],
    edges: &[u16],
    counts: &mut [u16],
    starts: &mut [u32],
    edge: usize,
    count: u16,
) -> Result<u32, Refusal>
    ensures result_value { check_numbers result ≡ set_answer (grid_of cells.now edges.now counts.old starts.old) edge count }
    ensures counts_after { counts.new ≡ set_counts (grid_of cells.now edges.now counts.old starts.old) edge count }
    ensures starts_after { starts.new ≡ set_starts (grid_of cells.now edges.now counts.old starts.old) edge count }
{
    let n = check(Grid {
        cells,
        edges,
        counts,
        starts,
    })?;
    change(counts, starts, n, edge, count)
}

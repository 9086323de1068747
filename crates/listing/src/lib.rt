// The listing of a bundle: the text that the program meshlist prints.
#![tactic(auto)]

ghost use Rattle.std.specs.Prelude.{◌≤◌, ◌≡◌, [], ◌∷◌, length};
ghost use Rattle.answer.specs.Answer.{result_of};
ghost use Rattle.grid.specs.Grid.{grid_of, built};
ghost use Rattle.grid.specs.Lent.{lent};
ghost use Rattle.grid.specs.Opening.{open_starts};
ghost use Rattle.grid.specs.Rows.{grid_answer};
ghost use Rattle.listing.specs.work.Listing.{room_bytes, Told};
ghost use Rattle.listing.specs.Listing.{grid_listing, listing, Listed};

use crate::lines::{HEAD_ROOM, LINE_ROOM};
use answer::{Refusal, Row};
use bundle::{CELL_BYTES, CELL_NODES, EDGE_BYTES, EDGE_ENDS, END_BYTES};
use cell::WORD_COUNT;
use grid::Grid;

mod lines;
mod text;

// The most bytes of a bundle, and the most cells and edges that so many bytes hold besides the end: 2,730 and 3,640.
pub const MOST_BYTES: usize = 32768;

const CELLS_IN_BUNDLE: usize = (MOST_BYTES - END_BYTES) / CELL_BYTES;

const EDGES_IN_BUNDLE: usize = (MOST_BYTES - END_BYTES) / EDGE_BYTES;

// The triangles that the area holds, and its words.
const AREA_TRIANGLES: usize = 1489;

const AREA_WORDS: usize = WORD_COUNT * AREA_TRIANGLES;

// Bytes for the longest listing: a first line of 116, and 1,489 lines of 123.
pub const ROOM: usize = HEAD_ROOM + LINE_ROOM * AREA_TRIANGLES;

// The listing of a grid that the check accepts with so many crossings, or what the mesh call refuses. About 64 KB of stack, besides what `mesh::mesh` keeps.
fn list_mesh(grid: Grid, crossings: u32, out: &mut [u8]) -> Result<usize, Refusal>
    requires { (result_of (crossings ∷ []) ≡ grid_answer (lent grid)) × (room_bytes ≤ length out.old) }
    ensures { Told (grid_listing (lent grid.entry)) out.old out.new result }
{
    let mut area = [0u32; AREA_WORDS];
    let n = mesh::mesh(grid, &mut area)?.triangles;
    let at = lines::put_head(
        out,
        grid.cells.len() / CELL_NODES,
        grid.counts.len(),
        crossings,
        n,
    );
    Ok(lines::put_lines(out, at, &area, n))
}

// The listing of a grid that is opened here, with room for its starts, or what is refused.
fn list_grid(
    nodes: &[u16],
    ends: &[u16],
    counts: &[u16],
    starts: &mut [u32],
    out: &mut [u8],
) -> Result<usize, Refusal>
    requires { (length starts.old ≡ length counts.now) × (room_bytes ≤ length out.old) }
    ensures told { Told (grid_listing (built nodes.now ends.now counts.now)) out.old out.new result }
    ensures starts { starts.new ≡ open_starts (grid_of nodes.now ends.now counts.now starts.old) }
{
    let crossings = grid::open(nodes, ends, counts, starts)?;
    let grid = Grid {
        cells: nodes,
        edges: ends,
        counts,
        starts,
    };
    list_mesh(grid, crossings, out)
}

// The listing of a bundle, or what is refused. Keeps 57 KB on the stack, besides what `list_grid` keeps.
fn list_bundle(bytes: &[u8], out: &mut [u8]) -> Result<usize, Refusal>
    requires { room_bytes ≤ length out.old }
    ensures { Told (listing bytes.now) out.old out.new result }
{
    if MOST_BYTES < bytes.len() {
        return Err(Row::Records.at(MOST_BYTES));
    }
    let mut nodes = [0u16; CELL_NODES * CELLS_IN_BUNDLE];
    let mut ends = [0u16; EDGE_ENDS * EDGES_IN_BUNDLE];
    let mut counts = [0u16; EDGES_IN_BUNDLE];
    let mut starts = [0u32; EDGES_IN_BUNDLE];
    let lists = bundle::read(bytes, &mut nodes, &mut ends, &mut counts)?;
    let n = CELL_NODES * lists.cells;
    let m = EDGE_ENDS * lists.edges;
    let e = lists.edges;
    list_grid(&nodes[..n], &ends[..m], &counts[..e], &mut starts[..e], out)
}

// Puts the listing of any bytes at the front of the area, and answers how many bytes it has. What is refused is listed as one line.
pub fn list(bytes: &[u8], out: &mut [u8; ROOM]) -> usize
    ensures { Listed bytes.now out.old out.new result }
{
    match list_bundle(bytes, out) {
        Ok(n) => n,
        Err(refusal) => lines::put_refused(out, refusal),
    }
}

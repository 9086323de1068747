// The mesh call and the loops call.
#![tactic(auto)]

ghost use Rattle.std.specs.Prelude.{◌≡◌};
ghost use Rattle.grid.specs.Lent.{lent};
ghost use Rattle.mesh.specs.Numbers.{mesh_numbers, loops_numbers};
ghost use Rattle.mesh.specs.work.Drawn.{loop_from, DrawnFrom};
ghost use Rattle.mesh.specs.Answer.{loops_answer};
ghost use Rattle.mesh.specs.Done.{Done};

use answer::{Refusal, Row};
use cell::{Loop, Tables, WORD_COUNT};
use grid::{Grid, MOST_EDGES, MOST_SLOTS};

mod sizes;

pub use sizes::Mesh;

// The mesh of a grid from its tables: row 12, or the words.
fn draw(tables: Tables, area: &mut [u32]) -> Result<Mesh, Refusal>
    ensures { DrawnFrom tables.entry area.old area.new (mesh_numbers result) }
{
    let d = split::draw(tables, area);
    if area.len() < WORD_COUNT * d.triangles {
        return Err(Row::MeshArea.at(d.triangles));
    }
    Ok(Mesh {
        triangles: d.triangles as u64,
        splits: d.splits,
    })
}

// The mesh call. Keeps 40 KB on the stack for the grid's tables, besides what `grid::lay` keeps.
pub fn mesh(grid: Grid, area: &mut [u32]) -> Result<Mesh, Refusal>
    ensures { Done (lent grid.entry) area.old area.new (mesh_numbers result) }
{
    let mut names = [0u16; MOST_SLOTS];
    let mut sides = [0u16; MOST_EDGES];
    grid::lay(grid, &mut names, &mut sides)?;
    let tables = Tables {
        cells: grid.cells,
        counts: grid.counts,
        names: &names,
        sides: &sides,
        starts: grid.starts,
    };
    draw(tables, area)
}

// Loop k of cell c of a grid from its tables, where the cell has so many: row 11, or what the cell tells.
fn loop_of(tables: Tables, c: usize, k: usize) -> Result<Option<Loop>, Refusal>
    ensures { loops_numbers result ≡ loop_from tables.entry c k }
{
    if c < tables.cells.len() / 4 {
        let cell = cell::cell_at(tables, c);
        return Ok(cell::loop_at(cell, k));
    }
    Err(Row::NoCell.at(c))
}

// The loops call: loop k of cell c. Keeps 40 KB on the stack for the grid's tables, besides what `grid::lay` keeps.
pub fn loops(grid: Grid, c: usize, k: usize) -> Result<Option<Loop>, Refusal>
    ensures { loops_numbers result ≡ loops_answer (lent grid.entry) c k }
{
    let mut names = [0u16; MOST_SLOTS];
    let mut sides = [0u16; MOST_EDGES];
    grid::lay(grid, &mut names, &mut sides)?;
    let tables = Tables {
        cells: grid.cells,
        counts: grid.counts,
        names: &names,
        sides: &sides,
        starts: grid.starts,
    };
    loop_of(tables, c, k)
}

// The places call: the points of a mesh, by the places of the nodes and the fractions of the crossings.
#![tactic(auto)]

ghost use Rattle.std.specs.Prelude.{◌≡◌};
ghost use Rattle.grid.specs.Lent.{lent};
ghost use Rattle.places.specs.Numbers.{proper_fraction};
ghost use Rattle.places.specs.Answer.{places_numbers};
ghost use Rattle.places.specs.Done.{Done};
ghost use Rattle.cell.specs.work.Tables.{fans_all};
ghost use Rattle.places.specs.work.Tables.{inner_all, rest_put, ReadyTables, PointsOf};

use answer::Refusal;
use cell::Tables;
use grid::{Grid, MOST_EDGES, MOST_SLOTS};

mod points;
mod rows;

// Whether a fraction is above 0 and below 1.
fn is_proper(s: f64) -> bool
    ensures { result ≡ proper_fraction s }
{
    0.0 < s && s < 1.0
}

// Writes the places of the inner crossings, of which there are so many, and then those of the middles, from point `at` of the area on, and answers the
// next point. The loops of all cells have so many fans. Where no cell is split and there is no fan, nothing is left to write.
fn place_rest(
    tables: Tables,
    nodes: &[f64],
    area: &mut [f64],
    at: usize,
    inner: u64,
    fans: usize,
) -> usize
    requires { (inner ≡ inner_all tables) × (fans ≡ fans_all tables) }
    ensures { (area.new, result) ≡ rest_put tables.entry nodes.now area.old at }
{
    if inner == 0 {
        if fans == 0 {
            return at;
        }
        let n = cell::drawn(tables.cells);
        return direct::write_middles(tables, 0, n, nodes, area, at);
    }
    let i = split::write_inner(tables, nodes, area, at);
    split::write_drawn_middles(tables, nodes, area, i)
}

// The points of a grid with n crossings, from its tables: the answer of rows 15 to 17, and where they refuse nothing, the points' places.
fn place_all(
    tables: Tables,
    edges: &[u16],
    nodes: &[f64],
    fractions: &[f64],
    area: &mut [f64],
    n: usize,
) -> Result<u64, Refusal>
    requires { ReadyTables tables edges.now n }
    ensures { PointsOf tables.entry edges.now nodes.now fractions.now area.old area.new (places_numbers result) }
{
    let more = split::extra_of(tables);
    let own = direct::count_fans(tables);
    let fans = own + more.fans as usize;
    let all = n + more.inner as usize + fans;
    let many = rows::judge(
        tables.cells,
        tables.counts,
        nodes,
        fractions,
        n,
        all,
        area.len(),
    )?;
    points::place_crossings(edges, tables.counts, nodes, fractions, area);
    place_rest(tables, nodes, area, n, more.inner, own);
    Ok(many)
}

// The places call. Keeps 40 KB on the stack for the grid's tables, besides what `grid::lay` keeps while it runs.
pub fn places(
    grid: Grid,
    nodes: &[f64],
    fractions: &[f64],
    area: &mut [f64],
) -> Result<u64, Refusal>
    ensures { Done (lent grid.entry) nodes.now fractions.now area.old area.new (places_numbers result) }
{
    let mut names = [0u16; MOST_SLOTS];
    let mut sides = [0u16; MOST_EDGES];
    let n = grid::lay(grid, &mut names, &mut sides)?;
    let tables = Tables {
        cells: grid.cells,
        counts: grid.counts,
        names: &names,
        sides: &sides,
        starts: grid.starts,
    };
    place_all(tables, grid.edges, nodes, fractions, area, n as usize)
}

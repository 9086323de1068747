// The places of the crossings, edge by edge.
ghost use Rattle.std.specs.Prelude.{◌≡◌, ◌+◌, ◌*◌};
ghost use Rattle.std.proofs.lemmas.List.Edits.{sets};
ghost use Rattle.counting.specs.Lists.{values};
ghost use Rattle.counting.specs.work.Stored.{Stored};
ghost use Rattle.grid.specs.Grid.{crossings};
ghost use Rattle.place.specs.Place.{coordinates, all_numbers};
ghost use Rattle.places.specs.Points.{crossing_place};
ghost use Rattle.places.specs.work.Work.{on_edge, Fitting, Placeable};

use place::Place;

// Writes the places of n crossings between u and v, the first of which has the number g.
fn place_edge(u: Place, v: Place, fractions: &[f64], area: &mut [f64], n: usize, g: usize)
    requires { Fitting fractions.now area.old n g }
    ensures { Stored area.old (coordinates * g) (all_numbers (on_edge u v fractions.now n g)) area.new (coordinates * (g + n)) }
{
    for i in 0..n {
        let q = g + i;
        let p = place::interpolate(u, v, fractions[q]);
        place::store(area, q, p);
    }
}

// Writes the places of all crossings.
pub(crate) fn place_crossings(
    edges: &[u16],
    counts: &[u16],
    nodes: &[f64],
    fractions: &[f64],
    area: &mut [f64],
)
    requires { Placeable edges.now counts.now fractions.now area.old }
    ensures { area.new ≡ sets area.old 0 (all_numbers (values (crossing_place edges.now counts.now nodes.now fractions.now) (crossings counts.now))) }
{
    let mut g = 0;
    for e in 0..counts.len() {
        let u = place::load(nodes, edges[2 * e] as usize);
        let v = place::load(nodes, edges[2 * e + 1] as usize);
        let n = counts[e] as usize;
        place_edge(u, v, fractions, area, n, g);
        g += n;
    }
}

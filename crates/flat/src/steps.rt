// The step from dart to dart, in a table. A place is 3 f + k for edge k of triangle f. A port of an edge is one more than a place of it; 0 for none.
ghost use Rattle.std.specs.Prelude.{◌≡◌, ◌+◌, ◌*◌, ◌<◌, ◌≤◌, length};
ghost use Rattle.std.proofs.lemmas.List.Edits.{sets};
ghost use Rattle.counting.specs.Lists.{values};
ghost use Rattle.counting.specs.Stored.{filled};
ghost use Rattle.grid.specs.Grid.{count_of, crossings, start};
ghost use Rattle.slots.specs.Limits.{most_crossings};
ghost use Rattle.counting.specs.work.Tables.{Table};
ghost use Rattle.flat.specs.work.Work.{port_at, dart_step, Sides, Porting};
ghost use Rattle.flat.specs.work.Held.{step_by};

use crate::guides::Tables;
use crate::{MOST_PORTS, MOST_SIDES};

// The ports of the edges: the first of edge e at 2 e, the second at 2 e + 1.
fn put_ports(sides: &[usize], ports: &mut [u16])
    requires { Porting sides.now (length sides.now) ports.old }
    ensures { Table (port_at sides.now (length sides.now)) (length ports.old) ports.new }
{
    for j in 0..sides.len() {
        let i = 2 * sides[j];
        if ports[i] == 0 {
            ports[i] = (j + 1) as u16;
            continue;
        }
        ports[i + 1] = (j + 1) as u16;
    }
}

// The number of each edge's first crossing.
fn put_starts(counts: &[u16], starts: &mut [u32])
    requires counts_in_bounds { length counts.now ≤ length starts.old }
    requires counts_bound { crossings counts.now ≤ most_crossings }
    ensures { starts.new ≡ filled (start counts.now) (length counts.now) starts.old }
{
    let mut s: u32 = 0;
    for e in 0..counts.len() {
        starts[e] = s;
        s += counts[e] as u32;
    }
}

// The steps of the darts of edge e.
fn put_edge(tables: Tables, darts: usize, e: usize, next: &mut [u32])
    requires darts_value { darts ≡ 2 * crossings tables.counts.now }
    requires e_in_bounds { e < length tables.counts.now }
    requires darts_in_bounds { darts ≤ length next.old }
    ensures { next.new ≡ sets next.old (2 * start tables.entry.counts.now e) (values (λ i. step_by tables.entry (2 * start tables.entry.counts.now e + i)) (2 * count_of tables.entry.counts.now e)) }
{
    let a = 2 * tables.starts[e] as usize;
    let p = tables.port_guide(tables.ports[2 * e] as usize);
    let q = tables.port_guide(tables.ports[2 * e + 1] as usize);
    let c = tables.counts[e] as usize;
    for t in 0..c {
        next[a + 2 * t] = p.step(darts, t) as u32;
        next[a + 2 * t + 1] = q.step(darts, t) as u32;
    }
}

// The steps of all darts.
fn put_all(tables: Tables, darts: usize, next: &mut [u32])
    requires darts_value { darts ≡ 2 * crossings tables.counts.now }
    requires darts_in_bounds { darts ≤ length next.old }
    ensures { next.new ≡ filled (step_by tables.entry) darts next.old }
{
    for e in 0..tables.counts.len() {
        if tables.counts[e] == 0 {
            continue;
        }
        put_edge(tables, darts, e, next);
    }
}

// The table of the step, from the numbers of the triangles' edges at their places. Keeps 48 KB on the stack.
pub(crate) fn put_steps(counts: &[u16], sides: &[usize], darts: usize, next: &mut [u32])
    requires sides { Sides counts.now sides.now (length sides.now) }
    requires darts_value { darts ≡ 2 * crossings counts.now }
    requires darts_in_bounds { darts ≤ length next.old }
    ensures { next.new ≡ filled (dart_step counts.now sides.now (length sides.now)) darts next.old }
{
    let mut ports = [0u16; MOST_PORTS];
    let mut starts = [0u32; MOST_SIDES];
    put_ports(sides, &mut ports);
    put_starts(counts, &mut starts);
    let tables = Tables {
        counts,
        sides,
        ports: &ports,
        starts: &starts,
    };
    put_all(tables, darts, next);
}

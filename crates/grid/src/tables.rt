// The tables of an accepted grid, written into lent memory.
ghost use Rattle.std.specs.Prelude.{◌≡◌, ◌-◌, ◌≤◌, length, get_or};
ghost use Rattle.counting.specs.Stored.{filled};
ghost use Rattle.grid.specs.Grid.{start};
ghost use Rattle.grid.specs.work.Work.{Copying, Lowering, Starting, lower_place};

// The lower of place j and the place that x is one more than; j where x is 0.
fn lower(j: usize, x: usize) -> usize
    ensures value { result ≡ lower_place j x }
    ensures upper_bound { result ≤ j }
{
    if x == 0 { j } else { j.min(x - 1) }
}

// Names: a face has the lower of its two places, or its only one.
pub(crate) fn write_names(n: usize, across: &[u16], names: &mut [u16])
    requires { Copying n across.now names.old }
    ensures { names.new ≡ filled (λ j. lower_place j (get_or across.now j 0)) n names.old }
{
    for j in 0..n {
        names[j] = lower(j, across[j] as usize) as u16;
    }
}

pub(crate) fn write_sides(n: usize, listed: &[u16], sides: &mut [u16])
    requires { Lowering n listed.now sides.old }
    ensures { sides.new ≡ filled (λ j. get_or listed.now j 0 - 1) n sides.old }
{
    for j in 0..n {
        sides[j] = listed[j] - 1;
    }
}

// The starts of the edges from one on, where s is its start and those before it stand already.
pub(crate) fn write_starts(counts: &[u16], from: usize, s: u32, starts: &mut [u32])
    requires { Starting counts.now from s starts.old }
    ensures { starts.new ≡ filled (start counts.now) (length counts.now) starts.old }
{
    let mut sum = s;
    for e in from..counts.len() {
        starts[e] = sum;
        sum += counts[e] as u32;
    }
}

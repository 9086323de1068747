// Counts added.
ghost use Rattle.std.specs.Prelude.{◌≡◌, ◌+◌, ◌≤◌};
ghost use Rattle.cell.specs.work.Limits.{most_sum};

// The sum of two counts.
pub fn sum_of(a: u16, b: u16) -> u32
    ensures { (result ≡ a + b) × (result ≤ most_sum) }
{
    a as u32 + b as u32
}

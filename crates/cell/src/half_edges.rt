// The half-edges of a cell. Both functions go by cases: an array would be written to the stack at each look-up (SPEED.md).
ghost use Rattle.std.specs.Prelude.{◌≡◌, ◌<◌};
ghost use Rattle.slots.specs.Slots.{first_slot};
ghost use Rattle.cell.specs.work.Half.{half_edges, half_of};
ghost use Rattle.cell.specs.claims.Half.{edge_of};

// The edge of a half-edge.
pub(crate) fn edge_of(h: usize) -> usize
    requires { h < half_edges }
    ensures { (result ≡ edge_of h) × (result < 6) }
{
    match h {
        6 | 9 => 0,
        3 | 10 => 1,
        4 | 7 => 2,
        0 | 11 => 3,
        1 | 8 => 4,
        _ => 5,
    }
}

// The half-edge of an edge in its first slot.
pub(crate) fn first_of(e: usize) -> usize
    requires { e < 6 }
    ensures { (result ≡ half_of (first_slot e) e) × (result < half_edges) }
{
    match e {
        0 => 9,
        1 => 10,
        2 => 7,
        3 => 11,
        4 => 8,
        _ => 5,
    }
}

// The segments of a triangle: what a crossing is joined to and how, or why it is not, from the counts of the triangle's edges.
ghost use Rattle.std.specs.Prelude.{◌≡◌, ◌-◌, ◌<◌, eqb, get_or, unwrap_or, IfSome};
ghost use Rattle.counting.specs.Lists.{one};
ghost use Rattle.face.specs.work.Corners.{corner_list, corners};
ghost use Rattle.face.specs.Face.{joined_by, corner_count_at};
ghost use Rattle.slots.specs.Slots.{lower};
ghost use Rattle.face.specs.Join.{how_numbers, join_numbers};
ghost use Rattle.flat.specs.Join.{largest_edge, lessened, triangle_answer};
ghost use Rattle.flat.specs.work.Work.{lessened_edge, squeezed, stretched_to, stretched, LessenedAt};

use face::{CornerCounts, How, Join, Why};
use slots::lower_end;

// The edge with the largest of these counts, the first on a tie.
fn largest_of(x: u32, y: u32, z: u32) -> u32
    ensures { (result ≡ largest_edge x y z) × (result < 3) }
{
    if x < y {
        if y < z { 2 } else { 1 }
    } else if x < z {
        2
    } else {
        0
    }
}

// The edge whose count rule 2 lessens; none in the other rules.
fn lessened_edge(ab: u16, ac: u16, bc: u16) -> Option<u32>
    ensures value { unwrap_or result 3 ≡ lessened_edge ab ac bc }
    ensures edge { IfSome result (λ m. m < 3) }
{
    let x = ab as u32;
    let y = ac as u32;
    let z = bc as u32;
    if (x + y + z) % 2 == 0 || y + z < x || x + z < y || x + y < z {
        None
    } else {
        Some(largest_of(x, y, z))
    }
}

// The count x of edge e, less by 1 if that is edge m.
fn less_at(x: u16, e: u32, m: u32) -> u16
    requires { e ≡ m → 0 < x }
    ensures { result ≡ x - one (eqb e m) }
{
    if e == m { x - 1 } else { x }
}

// The corner counts of a triangle, at its nodes a, b, c.
pub(crate) fn flat_corners(ab: u16, ac: u16, bc: u16) -> CornerCounts
    ensures { corner_list result ≡ corners (lessened ab ac bc 0) (lessened ab ac bc 1) (lessened ab ac bc 2) }
{
    match lessened_edge(ab, ac, bc) {
        None => face::corners_of(ab, ac, bc),
        Some(m) => {
            let x = less_at(ab, 0, m);
            let y = less_at(ac, 1, m);
            let z = less_at(bc, 2, m);
            face::corners_of(x, y, z)
        }
    }
}

// The corner count at the lower end of edge m.
fn lower_corner(x: u16, y: u16, z: u16, m: u32) -> u32
    requires { m < 3 }
    ensures { result ≡ corner_count_at x y z (lower m) m }
{
    face::corners_of(x, y, z).at(lower_end(m)) as u32
}

#[tactic(auto, unfolding(crate::specs::work::Work::squeezed))]
fn squeeze(g: u32, t: u32) -> u32
    ensures { result ≡ squeezed g t }
{
    if g < t { t - 1 } else { t }
}

#[tactic(auto, unfolding(crate::specs::work::Work::stretched_to))]
fn stretch_to(m: u32, g: u32, e: u32, u: u32, how: How) -> Join
    requires { u < 65536 }
    ensures { join_numbers result ≡ joined_by e (stretched_to m g e u) (how_numbers how) }
{
    if e == m && g <= u {
        Join::Joined(e, u + 1, how)
    } else {
        Join::Joined(e, u, how)
    }
}

#[tactic(auto, unfolding(crate::specs::work::Work::stretched))]
fn stretch(m: u32, g: u32, j: Join) -> Join
    requires { get_or (join_numbers j) 2 0 < 65536 }
    ensures { join_numbers result ≡ stretched m g (join_numbers j) }
{
    match j {
        Join::Joined(e, u, how) => stretch_to(m, g, e, u, how),
        Join::Unjoined(why) => Join::Unjoined(why),
        Join::NoCrossing => Join::NoCrossing,
    }
}

// Rule 2, which lessens the count of edge m: the face call over the lessened counts, but for the crossing that is left.
fn join_left(ab: u16, ac: u16, bc: u16, m: u32, edge: u32, index: u32) -> Join
    requires { LessenedAt ab ac bc m }
    ensures { join_numbers result ≡ triangle_answer ab ac bc edge index }
{
    let x = less_at(ab, 0, m);
    let y = less_at(ac, 1, m);
    let z = less_at(bc, 2, m);
    let g = lower_corner(x, y, z, m);
    if edge != m {
        return stretch(m, g, face::face_join(x, y, z, edge, index));
    }
    if index == g {
        return Join::Unjoined(Why::Left);
    }
    stretch(m, g, face::face_join(x, y, z, edge, squeeze(g, index)))
}

// The call for a triangle of a flat grid: the crossing at an index of an edge (0 ab, 1 ac, 2 bc) of the triangle with these counts.
pub fn flat_join(ab: u16, ac: u16, bc: u16, edge: u32, index: u32) -> Join
    ensures { join_numbers result ≡ triangle_answer ab ac bc edge index }
{
    match lessened_edge(ab, ac, bc) {
        None => face::face_join(ab, ac, bc, edge, index),
        Some(m) => join_left(ab, ac, bc, m, edge, index),
    }
}

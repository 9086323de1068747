// The face call: what a crossing of a face is joined to and how, or why it is not, from the counts of the face's edges.
#![tactic(auto)]

ghost use Rattle.std.specs.Prelude.{◌≡◌, ◌+◌, ◌≤◌, ◌<◌, get_or};
ghost use Rattle.face.specs.Face.{other, count_on, kth, partner, face_answer};
ghost use Rattle.face.specs.work.Corners.{corners, corner_list};
ghost use Rattle.face.specs.Join.{join_numbers, why_number};
ghost use Rattle.face.specs.work.Stand.{stand_number, stand_on, why_on};
ghost use Rattle.face.specs.claims.Ends.{End};
ghost use Rattle.face.specs.work.Ends.{AtCorner, OnEdge};

use slots::{lower_end, upper_end};

// How a crossing is joined: round a corner, by its node (0 a, 1 b, 2 c), or along its edge.
#[derive(Clone, Copy, Debug, PartialEq, Eq)]
pub enum How {
    Round(u32),
    Along,
}

// Why a crossing is unjoined: rule 2 left it, or rule 3 skipped it.
#[derive(Clone, Copy, Debug, PartialEq, Eq)]
pub enum Why {
    Left,
    Skipped,
}

// Where a crossing goes: to the partner's edge and index, and how; nowhere, and why; or there is no such crossing.
#[derive(Clone, Copy, Debug, PartialEq, Eq)]
pub enum Join {
    Joined(u32, u32, How),
    Unjoined(Why),
    NoCrossing,
}

// Where a crossing stands on its edge: at the lower corner, or at the upper; between them and joined to the next one up, or to the next one down; or
// between them and alone.
#[derive(Clone, Copy, Debug, PartialEq, Eq)]
pub enum Stand {
    Low,
    High,
    Up,
    Down,
    Alone,
}

// The counts of the edges of a face. The edges ab, ac, bc are 0, 1, 2, and the nodes a, b, c are 0, 1, 2.
#[derive(Clone, Copy)]
struct Face {
    ab: u16,
    ac: u16,
    bc: u16,
}

// The corner counts of a face, at its nodes a, b, c.
#[derive(Clone, Copy, Debug, PartialEq, Eq)]
pub struct CornerCounts {
    pub a: u16,
    pub b: u16,
    pub c: u16,
}

impl CornerCounts {
    // The corner count at a node; 0 where there is no such node.
    pub fn at(self, node: u32) -> u16
        ensures { result ≡ get_or (corner_list self) node 0 }
    {
        match node {
            0 => self.a,
            1 => self.b,
            2 => self.c,
            _ => 0,
        }
    }
}

fn other_edge(node: u32, edge: u32) -> u32
    requires { End node edge }
    ensures { result ≡ other node edge }
{
    node + 1 - edge
}

// The corner counts of the face with these counts: rule 3 with ab, ac or bc above the other two; else rules 1 and 2, which lessen each count by the remainder
// of their sum by 2. One half gives the corner count at a, and those at b and c are what it leaves of the lessened ab and ac.
pub fn corners_of(ab: u16, ac: u16, bc: u16) -> CornerCounts
    ensures { corner_list result ≡ corners ab ac bc }
{
    let x = ab as u32;
    let y = ac as u32;
    let z = bc as u32;
    if y + z < x {
        return CornerCounts { a: ac, b: bc, c: 0 };
    }
    if x + z < y {
        return CornerCounts { a: ab, b: 0, c: bc };
    }
    if x + y < z {
        return CornerCounts { a: 0, b: ab, c: ac };
    }
    let less = (x + y + z) % 2;
    let p = x - less;
    let q = y - less;
    let a = (p + y - z) / 2;
    CornerCounts {
        a: a as u16,
        b: (p - a) as u16,
        c: (q - a) as u16,
    }
}

// Where crossing t of an edge stands, of which those below p are at its lower corner and those from `end` on at its upper. Between them neighbours are
// joined in pairs, from the upper corner down; if they are odd in number, the lowest is alone. The walks of a cell decide by it too.
#[tactic(auto, unfolding(crate::specs::work::Stand::stand_on))]
pub fn stand_of(p: usize, end: usize, t: usize) -> Stand
    ensures { stand_number result ≡ stand_on p end t }
{
    if t < p {
        Stand::Low
    } else if end <= t {
        Stand::High
    } else if (end - t) % 2 == 0 {
        Stand::Up
    } else if t == p {
        Stand::Alone
    } else {
        Stand::Down
    }
}

impl Face {
    // The count of an edge; 0 where there is no such edge.
    #[tactic(auto, unfolding(crate::specs::Face::count_on))]
    fn count_of(self, edge: u32) -> u16
        ensures { result ≡ count_on self.ab self.ac self.bc edge }
    {
        match edge {
            0 => self.ab,
            1 => self.ac,
            2 => self.bc,
            _ => 0,
        }
    }

    fn sum_of(self) -> u32
        ensures { result ≡ self.ab + self.ac + self.bc }
    {
        self.ab as u32 + self.ac as u32 + self.bc as u32
    }

    // Why a crossing of an edge of x crossings is unjoined: rule 3 skipped it where the edge has more than the other two, else rule 2 left it.
    #[tactic(auto, unfolding(crate::specs::work::Stand::why_on))]
    fn why_of(self, x: u32) -> Why
        requires { x ≤ self.ab + self.ac + self.bc }
        ensures { why_number result ≡ why_on self.ab self.ac self.bc x }
    {
        if self.sum_of() - x < x {
            Why::Skipped
        } else {
            Why::Left
        }
    }

    // The index of the k-th crossing of an edge from one of its ends.
    #[tactic(auto, unfolding(crate::specs::Face::kth))]
    fn kth_of(self, node: u32, edge: u32, k: u32) -> u32
        requires { k < count_on self.ab self.ac self.bc edge }
        ensures { result ≡ kth self.ab self.ac self.bc node edge k }
    {
        if node == lower_end(edge) {
            k
        } else {
            self.count_of(edge) as u32 - 1 - k
        }
    }

    // What that crossing is joined to round the corner.
    #[tactic(auto, unfolding(crate::specs::Face::partner))]
    fn partner_of(self, node: u32, edge: u32, k: u32) -> Join
        requires { AtCorner self.ab self.ac self.bc node edge k }
        ensures { join_numbers result ≡ partner self.ab self.ac self.bc node edge k }
    {
        let e = other_edge(node, edge);
        Join::Joined(e, self.kth_of(node, e, k), How::Round(node))
    }

    // Crossing t of an edge of x crossings, with the corner counts p and q at its lower and its upper end.
    fn join_on(self, edge: u32, x: u32, p: u32, q: u32, t: u32) -> Join
        requires { OnEdge self.ab self.ac self.bc edge x p q t }
        ensures { join_numbers result ≡ face_answer self.ab self.ac self.bc edge t }
    {
        match stand_of(p as usize, (x - q) as usize, t as usize) {
            Stand::Low => self.partner_of(lower_end(edge), edge, t),
            Stand::High => self.partner_of(upper_end(edge), edge, x - 1 - t),
            Stand::Up => Join::Joined(edge, t + 1, How::Along),
            Stand::Down => Join::Joined(edge, t - 1, How::Along),
            Stand::Alone => Join::Unjoined(self.why_of(x)),
        }
    }
}

// The face call: the crossing at an index of an edge (0 ab, 1 ac, 2 bc) of the face with these counts.
pub fn face_join(ab: u16, ac: u16, bc: u16, edge: u32, index: u32) -> Join
    ensures { join_numbers result ≡ face_answer ab ac bc edge index }
{
    let f = Face { ab, ac, bc };
    let x = f.count_of(edge) as u32;
    if x <= index {
        return Join::NoCrossing;
    }
    let c = corners_of(ab, ac, bc);
    let p = c.at(lower_end(edge)) as u32;
    let q = c.at(upper_end(edge)) as u32;
    f.join_on(edge, x, p, q, index)
}

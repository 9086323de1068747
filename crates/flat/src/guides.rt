// How the crossings of an edge go on through a triangle, worked out once for all of them.
ghost use Rattle.std.specs.Prelude.{◌≡◌, ◌+◌, ◌*◌, ◌<◌, ◌≤◌, length, get_or};
ghost use Rattle.face.specs.work.Corners.{corner_list};
ghost use Rattle.face.specs.claims.Ends.{End};
ghost use Rattle.grid.specs.Grid.{crossings};
ghost use Rattle.flat.specs.work.Work.{lane_step, LaneFits, guide_step, GuideFits, corners_at, Tabled};

use crate::join::flat_corners;
use face::{CornerCounts, Stand, stand_of};
use slots::{lower_end, upper_end};

// The crossings of an edge that go on round the corner at one of its ends: their number, whether the crossings that they come to are counted down from
// the last of the other edge there or up from its first, and the dart of the one after that last, or of that first.
#[derive(Clone, Copy)]
pub(crate) struct Lane {
    pub(crate) size: usize,
    pub(crate) down: bool,
    pub(crate) from: usize,
}

impl Lane {
    // The dart that the k-th crossing from the corner leads to.
    #[tactic(auto, unfolding(crate::specs::work::Work::lane_step))]
    fn step(self, k: usize) -> usize
        requires lane_fits { LaneFits self }
        requires k_lt_size { k < self.size }
        ensures value { result ≡ lane_step self k }
        ensures upper_bound { result < 4294967296 }
    {
        if self.down {
            self.from - 2 * (k + 1)
        } else {
            self.from + 2 * k
        }
    }
}

// The crossings of an edge in a triangle: those round the corners at its lower and its upper end, their number, and the dart of the first that is come
// to from a crossing of the same edge.
#[derive(Clone, Copy)]
pub(crate) struct Guide {
    pub(crate) low: Lane,
    pub(crate) high: Lane,
    pub(crate) count: usize,
    pub(crate) own: usize,
}

impl Guide {
    // The dart that crossing t leads to, as the face call decides it; the number of darts where there is none.
    pub(crate) fn step(self, darts: usize, t: usize) -> usize
        requires guide_fits { GuideFits self }
        requires darts_bound { darts < 4294967296 }
        ensures value { result ≡ guide_step self darts t }
        ensures upper_bound { result < 4294967296 }
    {
        if self.count <= t {
            return darts;
        }
        match stand_of(self.low.size, self.count - self.high.size, t) {
            Stand::Low => self.low.step(t),
            Stand::High => self.high.step(self.count - 1 - t),
            Stand::Up => self.own + 2 * (t + 1),
            Stand::Down => self.own + 2 * (t - 1),
            Stand::Alone => darts,
        }
    }
}

// What the step is read from: the counts; the number of the edge at each place of a triangle; the ports of each edge; the number of its first crossing.
#[derive(Clone, Copy)]
pub(crate) struct Tables<'a> {
    pub(crate) counts: &'a [u16],
    pub(crate) sides: &'a [usize],
    pub(crate) ports: &'a [u16],
    pub(crate) starts: &'a [u32],
    ghost tabled: { Tabled counts.now sides.now (length sides.now) ports.now starts.now },
}

impl<'a> Tables<'a> {
    ghost use Rattle.flat.specs.work.Held.{count_in, land_in, LaneIn, GuidesIn, PortGuidesIn};

    // The count of the edge at place j.
    fn count_at(self, j: usize) -> u16
        requires j_in_bounds { j < length self.sides.now }
        requires j_in_bounds_2 { get_or self.sides.now j 0 < length self.counts.now }
        ensures { result ≡ count_in self.entry j }
    {
        let e = self.sides[j];
        self.counts[e]
    }

    // The dart that goes on from crossing t of the edge at place j, come to by the triangle of that place; also for the t after the last.
    fn land(self, j: usize, t: usize) -> usize
        requires j_lt_n { j < length self.sides.now }
        requires t_bound { t ≤ count_in self j }
        ensures value { result ≡ land_in self.entry j t }
        ensures upper_bound { result ≤ 2 * crossings self.entry.counts.now + 1 }
    {
        let e = self.sides[j];
        let y = self.starts[e] as usize + t;
        let p = self.ports[2 * e] as usize;
        if p == j + 1 { 2 * y + 1 } else { 2 * y }
    }

    // The lane of edge e at its end w, in the triangle whose first place is b and whose corner counts are c.
    fn lane_at(self, b: usize, c: CornerCounts, w: u32, e: u32) -> Lane
        requires b_bound { b + 2 < length self.sides.now }
        requires c_value { corner_list c ≡ corners_at self.counts.now self.sides.now b }
        requires end { End w e }
        ensures { LaneIn self.entry b w e result }
    {
        let other = w + 1 - e;
        let j = b + other as usize;
        let size = c.at(w) as usize;
        if w == lower_end(other) {
            return Lane {
                size,
                down: false,
                from: self.land(j, 0),
            };
        }
        let last = self.count_at(j) as usize;
        Lane {
            size,
            down: true,
            from: self.land(j, last),
        }
    }

    // The guide of the edge at place j, in the triangle of that place.
    fn guide_at(self, j: usize) -> Guide
        requires j_lt_n { j < length self.sides.now }
        ensures { GuidesIn self.entry j result }
    {
        let b = 3 * (j / 3);
        let e = (j % 3) as u32;
        let ab = self.count_at(b);
        let ac = self.count_at(b + 1);
        let bc = self.count_at(b + 2);
        let c = flat_corners(ab, ac, bc);
        let low = self.lane_at(b, c, lower_end(e), e);
        let high = self.lane_at(b, c, upper_end(e), e);
        let count = self.count_at(j) as usize;
        let own = self.land(j, 0);
        Guide {
            low,
            high,
            count,
            own,
        }
    }

    // The guide by a port, that is by one more than a place; one without crossings where there is no triangle.
    pub(crate) fn port_guide(self, q: usize) -> Guide
        requires q_le_n { q ≤ length self.sides.now }
        ensures { PortGuidesIn self.entry q result }
    {
        if q == 0 {
            let none = Lane {
                size: 0,
                down: false,
                from: 0,
            };
            return Guide {
                low: none,
                high: none,
                count: 0,
                own: 0,
            };
        }
        self.guide_at(q - 1)
    }
}

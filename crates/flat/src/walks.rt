// Walks over a table of the step: the chain of a least crossing.
ghost use Rattle.std.specs.Prelude.{◌≡◌, ◌+◌, ◌*◌, ◌/◌, ◌<◌, length};
ghost use Rattle.walk.specs.Darts.{rev};
ghost use Rattle.flat.specs.work.Work.{StepTable, Ran, Fresh, Finds, start_by};

// The table of the step: the dart after each dart, of two to a crossing; their number where there is none.
#[derive(Clone, Copy)]
pub(crate) struct Steps<'a> {
    pub(crate) next: &'a [u32],
    ghost table: { StepTable (length next.now / 2) next.now },
}

// A walk from a dart: its steps, and the dart after them.
#[derive(Clone, Copy)]
pub(crate) struct Walk {
    pub(crate) steps: usize,
    pub(crate) last: usize,
}

// A chain: whether it is closed, its number of crossings, and its first dart.
#[derive(Clone, Copy)]
pub(crate) struct Chain {
    pub(crate) closed: bool,
    pub(crate) size: usize,
    pub(crate) start: usize,
}

// The other dart of a dart's crossing.
#[tactic(auto, unfolding(walk::specs::Darts::rev))]
fn turned(d: usize) -> usize
    requires { d < 131072 }
    ensures { result ≡ rev d }
{
    if d % 2 == 0 { d + 1 } else { d - 1 }
}

// The dart at the end with the lower number, of the two to which darts a and b have led.
#[tactic(auto, unfolding(crate::specs::work::Work::start_by))]
fn lower_end(a: usize, b: usize) -> usize
    requires a_bound { a < 131072 }
    requires b_bound { b < 131072 }
    ensures { result ≡ start_by a b }
{
    turned(if a / 2 < b / 2 { a } else { b })
}

impl<'a> Steps<'a> {
    ghost use Rattle.flat.specs.work.Along.{along, crossings_in};

    // The walk from dart d to the end of its curve, or to the last dart before d comes again.
    fn run(self, d: usize) -> Walk
        requires { d < 2 * crossings_in self }
        ensures { Ran (crossings_in self.entry) (along self.entry) d result.steps result.last }
    {
        let next = self.next;
        let mut k = 0;
        let mut e = d;
        // Stays: a loop, since the next dart comes from the table and not from a range.
        loop {
            let f = next[e] as usize;
            if f == d || next.len() <= f {
                return Walk { steps: k, last: e };
            }
            e = f;
            k += 1;
        }
    }

    // The chain whose least crossing is p, if p is in no chain with a lower one; none where no segment ends at p.
    pub(crate) fn chain_at(self, p: usize) -> Option<Chain>
        requires p_lt_n { p < crossings_in self }
        requires fresh { Fresh (crossings_in self) (along self) p }
        ensures { Finds (crossings_in self.entry) (along self.entry) p result }
    {
        let w = self.run(2 * p);
        let k = w.steps;
        let a = w.last;
        if self.next[a] as usize == 2 * p {
            return Some(Chain {
                closed: true,
                size: k + 1,
                start: 2 * p,
            });
        }
        let v = self.run(2 * p + 1);
        let l = v.steps;
        let b = v.last;
        if k + l == 0 {
            return None;
        }
        let start = lower_end(a, b);
        Some(Chain {
            closed: false,
            size: k + l + 1,
            start,
        })
    }
}

// The place before each with the same key.
ghost use Rattle.std.specs.Prelude.{◌≡◌, length};
ghost use Rattle.counting.specs.Stored.{filled};
ghost use Rattle.trees.specs.work.Keys.{key_in, earlier_in};
ghost use Rattle.trees.specs.work.Planted.{key_branches, Growing, Stepping};

use crate::BRANCHES;
use crate::planting::grow;

// For each place, of which prev has one more than the last with its key: one more than the last before it with its key, or 0. At each such last place,
// seen keeps the last so far.
fn step(keys: &[usize], prev: &mut [u16], seen: &mut [u16])
    requires { Stepping keys.now (length keys.now) prev.old seen.old }
    ensures { prev.new ≡ filled (earlier_in keys.now) (length keys.now) prev.old }
{
    for j in 0..keys.len() {
        let t = prev[j] as usize;
        prev[j] = seen[t];
        seen[t] = (j + 1) as u16;
    }
}

// For each key, one more than the last place before it with the same key, or 0.
pub(crate) fn put_earlier(keys: &[usize], links: &mut [u16], prev: &mut [u16])
    requires { Growing key_branches (key_in keys.now) (length keys.now) links.old prev.old }
    ensures { prev.new ≡ filled (earlier_in keys.now) (length keys.now) prev.old }
{
    grow::<&[usize], BRANCHES>(&keys, links, prev);
    links[..keys.len() + 1].fill(0);
    step(keys, prev, links);
}

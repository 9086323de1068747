// Items numbered by (lowest node, key): equal numbers are equal nodes and keys, in time that is linear for every input.
ghost use Rattle.std.specs.Prelude.{◌≡◌, ◌*◌, ◌+◌, ◌/◌, ◌<◌, ◌≤◌, length, get_or, set};
ghost use Rattle.grid.specs.work.Numbered.{Numberable, Ready, Does, number_of, ids_after, at_after, mark_of};
ghost use Rattle.grid.specs.work.Walks.{Linked, Linkable, label_at, InSlots, Walkable, Walks, Passable, Passed, Labelling, Labels, corner, SameFrom, SameNodes, Pairable, Slots, Cells, Slotted, LabelChains, LowChains, Numerable, Comparable, ChainTables, Fresh};
ghost use Rattle.grid.specs.work.Runs.{Blanked, NodeChains};
ghost use Rattle.grid.specs.work.Held.{ChainsNew, ComparableBy, LabelsChained, LowChained, NodesChained, NumerableBy};
ghost use Rattle.counting.specs.Stored.{filled};
ghost use Rattle.trees.specs.work.Trees.{link_to};

use crate::scratch::{Chain, Chains, NodeTables, SlotTables};

// Gives item i the number of its key in this turn: the one that at has, where it is above base, else the next. Answers the last number given out.
// Stays: keys, at and out are three slices from here up to `pass`, since each call lends other fields of one table for them, two to be written; a struct of
// these borrows would stand before every list in the clauses.
fn number(i: usize, keys: &[u16], base: usize, ids: usize, at: &mut [u16], out: &mut [u16]) -> usize
    requires { Numberable keys.now i ids at.old out.old }
    ensures value { result ≡ ids_after base ids (mark_of keys.now at.old i) }
    ensures at_after { at.new ≡ at_after base ids (mark_of keys.now at.old i) at.old (get_or keys.now i 0) }
    ensures out_after { out.new ≡ set out.old i (number_of base ids (mark_of keys.now at.old i)) }
{
    let key = keys[i] as usize;
    let q = at[key];
    if base < q as usize {
        out[i] = q;
        return ids;
    }
    let r = ids + 1;
    at[key] = r as u16;
    out[i] = r as u16;
    r
}

// Numbers the slots of cell c from `from` up to `to`.
fn numbers(
    c: usize,
    from: usize,
    to: usize,
    keys: &[u16],
    base: usize,
    ids: usize,
    at: &mut [u16],
    out: &mut [u16],
) -> usize
    requires from_le_to { from ≤ to }
    requires to_bound { to ≤ 4 }
    requires ready { Ready (InSlots c from to) keys.now base ids at.old out.old }
    ensures { Does (InSlots c from to) keys.now base ids at.old out.old result at.new out.new }
{
    let mut m = ids;
    for s in from..to {
        m = number(4 * c + s, keys, base, m, at, out);
    }
    m
}

// Numbers these slots of the cells with the label r, along their chain.
fn walk<const LABELS: usize, const CELLS: usize>(
    chain: &Chain<LABELS, CELLS>,
    r: usize,
    from: usize,
    to: usize,
    keys: &[u16],
    base: usize,
    ids: usize,
    at: &mut [u16],
    out: &mut [u16],
) -> usize
    requires { Walkable chain.now.head chain.now.next r from to keys.now base ids at.old out.old }
    ensures { Walks chain.now.head chain.now.next r from to keys.now base ids at.old out.old result at.new out.new }
{
    if to <= from {
        return ids;
    }
    let mut m = ids;
    // Stays: a while, since the next place comes from the links and not from a range.
    let mut j = chain.head[r] as usize;
    while 0 < j {
        let c = j - 1;
        m = numbers(c, from, to, keys, base, m, at, out);
        j = chain.next[c] as usize;
    }
    m
}

// Chains the first n cells by their label at position i.
fn link<const LABELS: usize, const CELLS: usize>(
    labels: &[u16],
    i: usize,
    n: usize,
    chain: &mut Chain<LABELS, CELLS>,
)
    requires { Linkable labels.now i n chain.old.head chain.old.next }
    ensures { Linked (label_at labels.now i) (length chain.old.head) n chain.new.head chain.new.next }
{
    for c in 0..n {
        let h = labels[4 * c + i] as usize;
        chain.next[c] = chain.head[h];
        chain.head[h] = (c + 1) as u16;
    }
}

// Gives the slots of all cells that the two chains have their numbers: a turn for each label below `many`.
fn pass<const LABELS: usize, const CELLS: usize>(
    a: &Chain<LABELS, CELLS>,
    froma: usize,
    toa: usize,
    b: &Chain<LABELS, CELLS>,
    fromb: usize,
    tob: usize,
    keys: &[u16],
    many: usize,
    at: &mut [u16],
    out: &mut [u16],
) -> usize
    requires { Passable a.now.head a.now.next froma toa b.now.head b.now.next fromb tob keys.now many at.old out.old }
    ensures { Passed a.now.head a.now.next froma toa b.now.head b.now.next fromb tob keys.now many at.old out.old result out.new }
{
    let mut ids = 0;
    for r in 0..many {
        let d = walk(a, r, froma, toa, keys, ids, ids, at, out);
        ids = walk(b, r, fromb, tob, keys, ids, d, at, out);
    }
    ids
}

// Numbers the first n nodes: the labels of the cells' nodes, from 1 on. Answers how many there are.
fn label(cells: &[u16], n: usize, at: &mut [u16], out: &mut [u16]) -> usize
    requires { Labelling cells.now n at.old out.old }
    ensures { Labels cells.now n result (length at.old) at.new out.new }
{
    let mut m = 0;
    for j in 0..n {
        m = number(j, cells, 0, m, at, out);
    }
    m
}

// The labels of the third nodes of the slots of n cells.
fn thirds(labels: &[u16], n: usize, out: &mut [u16])
    requires n_in_bounds { 4 * n ≤ length labels.now }
    requires n_in_bounds_2 { 4 * n ≤ length out.old }
    ensures { out.new ≡ filled (corner labels.now 2) (4 * n) out.old }
{
    for c in 0..n {
        let last = labels[4 * c + 3];
        out[4 * c] = last;
        out[4 * c + 1] = last;
        out[4 * c + 2] = last;
        out[4 * c + 3] = labels[4 * c + 2];
    }
}

// Chains the first n cells by their labels at the positions 0, 1 and 2.
fn link_all<const LABELS: usize, const CELLS: usize>(
    labels: &[u16],
    n: usize,
    chains: &mut Chains<LABELS, CELLS>,
)
    requires first { Linkable labels.now 0 n chains.old.first.head chains.old.first.next }
    requires second { Linkable labels.now 1 n chains.old.second.head chains.old.second.next }
    requires third { Linkable labels.now 2 n chains.old.third.head chains.old.third.next }
    ensures first { Linked (label_at labels.now 0) (length chains.old.first.head) n chains.new.first.head chains.new.first.next }
    ensures second { Linked (label_at labels.now 1) (length chains.old.second.head) n chains.new.second.head chains.new.second.next }
    ensures third { Linked (label_at labels.now 2) (length chains.old.third.head) n chains.new.third.head chains.new.third.next }
{
    link(labels, 0, n, &mut chains.first);
    link(labels, 1, n, &mut chains.second);
    link(labels, 2, n, &mut chains.third);
}

// Numbers the pairs: the second and third nodes of each slot.
fn number_pairs<const LABELS: usize, const CELLS: usize>(
    labels: &[u16],
    n: usize,
    many: usize,
    chains: &Chains<LABELS, CELLS>,
    keys: &mut [u16],
    at: &mut [u16],
    out: &mut [u16],
)
    requires { Pairable labels.now n many chains.now.second.head chains.now.second.next chains.now.third.head chains.now.third.next keys.old at.old out.old }
    ensures { Slots n (SameFrom 1 labels.now) out.new }
{
    thirds(labels, n, keys);
    pass(
        &chains.second,
        2,
        4,
        &chains.third,
        0,
        2,
        keys,
        many,
        at,
        out,
    );
}

// Puts 0 everywhere.
pub(crate) fn clear(table: &mut [u16])
    ensures { Blanked table.new }
{
    table.fill(0);
}

// Numbers the faces, by their lowest node and the pair of the others. The tables are new. `faces` has the third nodes first, and `same` the pairs.
fn number_slots<const SLOTS: usize, const LABELS: usize, const CELLS: usize>(
    n: usize,
    many: usize,
    chains: &Chains<LABELS, CELLS>,
    by_slot: &mut SlotTables<SLOTS, LABELS>,
)
    requires slotted { Slotted by_slot.old.labels n many by_slot.old.faces by_slot.old.same }
    requires label_chains { LabelsChained by_slot.old.labels n many chains.now }
    requires fresh { Fresh (4 * n + 1) by_slot.old.at }
    ensures told { Slots n (SameFrom 0 by_slot.old.labels) by_slot.new.faces }
    ensures rooms { (length by_slot.new.at ≡ length by_slot.old.at) × (length by_slot.new.same ≡ length by_slot.old.same) }
{
    number_pairs(
        &by_slot.labels,
        n,
        many,
        chains,
        &mut by_slot.faces,
        &mut by_slot.at,
        &mut by_slot.same,
    );
    clear(&mut by_slot.faces);
    clear(&mut by_slot.at);
    pass(
        &chains.first,
        1,
        4,
        &chains.second,
        0,
        1,
        &by_slot.same,
        many,
        &mut by_slot.at,
        &mut by_slot.faces,
    );
}

// Numbers the faces: numbers are equal exactly where the nodes are. The cells are chained by their nodes. The tables are new. Answers a bound of the labels.
pub(crate) fn number_faces<const SLOTS: usize, const LABELS: usize, const CELLS: usize>(
    cells: &[u16],
    by_node: &mut NodeTables<LABELS, CELLS>,
    by_slot: &mut SlotTables<SLOTS, LABELS>,
) -> usize
    requires numerable { NumerableBy cells.now by_node.old by_slot.old }
    requires chain_tables { ChainsNew (length cells.now / 4) by_node.old.chains }
    requires fresh { Fresh (4 * (length cells.now / 4) + 1) by_slot.old.at }
    ensures comparable { ComparableBy cells.now by_slot.new }
    ensures node_chains { NodesChained cells.now by_node.new }
    ensures low_chains { LowChained cells.now result by_node.new.chains.first }
{
    let n = cells.len() / 4;
    let many = label(cells, 4 * n, &mut by_node.ranks, &mut by_slot.labels) + 1;
    link_all(&by_slot.labels, n, &mut by_node.chains);
    number_slots(n, many, &by_node.chains, by_slot);
    many
}

// Numbers the cells, by their lowest node and their slot 0: numbers are equal exactly where the nodes are.
pub(crate) fn number_cells<const SLOTS: usize, const LABELS: usize, const CELLS: usize>(
    cells: &[u16],
    many: usize,
    chain: &Chain<LABELS, CELLS>,
    by_slot: &mut SlotTables<SLOTS, LABELS>,
)
    requires low_chains { LowChained cells.now many chain.now }
    requires comparable { ComparableBy cells.now by_slot.old }
    ensures { Cells (length cells.now / 4) (SameNodes cells.now) by_slot.new.same }
{
    clear(&mut by_slot.same);
    clear(&mut by_slot.at);
    pass(
        chain,
        0,
        1,
        chain,
        0,
        0,
        &by_slot.faces,
        many,
        &mut by_slot.at,
        &mut by_slot.same,
    );
}

// The last place that seen has for the number key, where there is one; from now on it has place j. The table has one more than a place, so that a new one
// is right.
pub(crate) fn earlier(key: usize, j: usize, seen: &mut [u16]) -> Option<usize>
    requires key_in_bounds { key < length seen.old }
    requires j_bound { j < 65535 }
    ensures value { link_to result ≡ get_or seen.old key 0 }
    ensures seen_after { seen.new ≡ set seen.old key (j + 1) }
{
    let link = seen[key] as usize;
    seen[key] = (j + 1) as u16;
    link.checked_sub(1)
}

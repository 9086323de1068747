// The tables that the check keeps while it runs. Their sizes are parameters, so that few cells have small ones.
ghost use Rattle.std.specs.Prelude.{◌≡◌, ◌+◌, length};
ghost use Rattle.slots.specs.Limits.{highest_node};
ghost use Rattle.grid.specs.work.Held.{NewChain};
ghost use Rattle.grid.specs.work.Walks.{Fresh};

use crate::NODES;

// Cells chained by a label: the last cell with each label, and before each cell the last one with its label; each one more than the cell, 0 for none.
#[derive(Drop)]
pub(crate) struct Chain<const LABELS: usize, const CELLS: usize> {
    pub(crate) head: [u16; LABELS],
    pub(crate) next: [u16; CELLS],
}

// The cells chained by the labels of their first, second and third nodes.
#[derive(Drop)]
pub(crate) struct Chains<const LABELS: usize, const CELLS: usize> {
    pub(crate) first: Chain<LABELS, CELLS>,
    pub(crate) second: Chain<LABELS, CELLS>,
    pub(crate) third: Chain<LABELS, CELLS>,
}

// By node: its label, or 0; and the chains.
#[derive(Drop)]
pub(crate) struct NodeTables<const LABELS: usize, const CELLS: usize> {
    pub(crate) ranks: [u16; NODES],
    pub(crate) chains: Chains<LABELS, CELLS>,
}

// By slot: the labels of the cells' nodes, the numbers of the faces, and those of the third nodes, of the pairs or of the cells. `at` has the number that a
// key was given.
#[derive(Drop)]
pub(crate) struct SlotTables<const SLOTS: usize, const LABELS: usize> {
    pub(crate) labels: [u16; SLOTS],
    pub(crate) at: [u16; LABELS],
    pub(crate) faces: [u16; SLOTS],
    pub(crate) same: [u16; SLOTS],
}

// By edge: one more than the last of the cells' edges that it is, and how many they are; and the marks of the cells. `tab` has the places of a run of edges,
// by the higher end.
#[derive(Drop)]
pub(crate) struct EdgeTables<const EDGES: usize, const CELLS: usize> {
    pub(crate) tab: [u16; NODES],
    pub(crate) top: [u16; EDGES],
    pub(crate) degree: [u16; EDGES],
    pub(crate) marks: [u16; CELLS],
}

impl<const LABELS: usize, const CELLS: usize> Chain<LABELS, CELLS> {
    fn new() -> Self
        ensures { NewChain result }
    {
        Chain {
            head: [0; LABELS],
            next: [0; CELLS],
        }
    }
}

impl<const LABELS: usize, const CELLS: usize> NodeTables<LABELS, CELLS> {
    pub(crate) fn new() -> Self
        ensures ranks { Fresh (highest_node + 1) result.ranks }
        ensures first { NewChain result.chains.first }
        ensures second { NewChain result.chains.second }
        ensures third { NewChain result.chains.third }
    {
        NodeTables {
            ranks: [0; NODES],
            chains: Chains {
                first: Chain::new(),
                second: Chain::new(),
                third: Chain::new(),
            },
        }
    }
}

impl<const SLOTS: usize, const LABELS: usize> SlotTables<SLOTS, LABELS> {
    pub(crate) fn new() -> Self
        ensures labels { Fresh SLOTS result.labels }
        ensures at { Fresh LABELS result.at }
        ensures faces { Fresh SLOTS result.faces }
        ensures same { Fresh SLOTS result.same }
    {
        SlotTables {
            labels: [0; SLOTS],
            at: [0; LABELS],
            faces: [0; SLOTS],
            same: [0; SLOTS],
        }
    }
}

impl<const EDGES: usize, const CELLS: usize> EdgeTables<EDGES, CELLS> {
    pub(crate) fn new() -> Self
        ensures tab { Fresh (highest_node + 1) result.tab }
        ensures top { Fresh EDGES result.top }
        ensures degree { Fresh EDGES result.degree }
        ensures marks { Fresh CELLS result.marks }
        ensures long { length result.top ≡ length result.degree }
    {
        EdgeTables {
            tab: [0; NODES],
            top: [0; EDGES],
            degree: [0; EDGES],
            marks: [0; CELLS],
        }
    }
}

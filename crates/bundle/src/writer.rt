// The bundle writer. What is put stands in the area from a place on, and the place after it is answered.
ghost use Rattle.std.specs.Prelude.{◌≡◌, ◌+◌, ◌*◌, ◌/◌, ◌%◌, ◌≤◌, length};
ghost use Rattle.counting.specs.Lists.{over};
ghost use Rattle.counting.specs.work.Stored.{Stored};
ghost use Rattle.bundle.specs.Record.{word_size, head_bytes, kind_number};
ghost use Rattle.bundle.specs.Bundle.{cell_nodes};
ghost use Rattle.bundle.specs.Written.{word_bytes, head_of, list_bytes, kind_for, count_bytes, cell_bytes, edge_bytes, write_answer, area_left, written_numbers};
ghost use Rattle.bundle.specs.work.Needed.{wides, bundle_size, CellFits, EdgeFits, CellsFit, EdgesFit};

use crate::kinds::Kind;
use crate::records::{
    BYTE_VALUES, CELL_BYTES, CELL_NODES, EDGE_BYTES, EDGE_ENDS, END_BYTES, WORD_BYTES,
};
use answer::{Refusal, Row};

// The greatest number of bytes that a refusal names.
const MOST: u128 = 4294967295;

// A number of 16 bits, low byte first.
fn put_word(area: &mut [u8], at: usize, x: u16) -> usize
    requires { at + word_size ≤ length area.old }
    ensures { Stored area.old at (word_bytes x) area.new result }
{
    let [low, high] = x.to_le_bytes();
    area[at] = low;
    area[at + 1] = high;
    at + WORD_BYTES
}

// The length and the kind of a record.
fn put_head(area: &mut [u8], at: usize, kind: Kind) -> usize
    requires { at + head_bytes ≤ length area.old }
    ensures { Stored area.old at (head_of (kind_number kind)) area.new result }
{
    let next = put_word(area, at, kind.length());
    put_word(area, next, kind.number())
}

// The numbers of a list.
fn put_words(area: &mut [u8], at: usize, words: &[u16]) -> usize
    requires { at + word_size * length words.now ≤ length area.old }
    ensures { Stored area.old at (list_bytes words.now 0 (length words.now)) area.new result }
{
    let mut next = at;
    for word in words {
        next = put_word(area, next, *word);
    }
    next
}

// The record of cell k.
fn put_cell(area: &mut [u8], at: usize, nodes: &[u16], k: usize) -> usize
    requires { CellFits area.old at nodes.now k }
    ensures { Stored area.old at (cell_bytes nodes.now k) area.new result }
{
    let body = put_head(area, at, Kind::Cell);
    let from = CELL_NODES * k;
    put_words(area, body, &nodes[from..from + CELL_NODES])
}

// The kind of an edge with a count.
fn kind_for(count: u16) -> Kind
    ensures { kind_number result ≡ kind_for count }
{
    if BYTE_VALUES <= count {
        Kind::Wide
    } else {
        Kind::Edge
    }
}

// The bytes of a count.
fn put_count(area: &mut [u8], at: usize, count: u16) -> usize
    requires { at + length (count_bytes count) ≤ length area.old }
    ensures { Stored area.old at (count_bytes count) area.new result }
{
    if BYTE_VALUES <= count {
        return put_word(area, at, count);
    }
    area[at] = count as u8;
    at + 1
}

// The record of edge k.
fn put_edge(area: &mut [u8], at: usize, ends: &[u16], counts: &[u16], k: usize) -> usize
    requires { EdgeFits area.old at ends.now counts.now k }
    ensures { Stored area.old at (edge_bytes ends.now counts.now k) area.new result }
{
    let count = counts[k];
    let body = put_head(area, at, kind_for(count));
    let from = EDGE_ENDS * k;
    let next = put_words(area, body, &ends[from..from + EDGE_ENDS]);
    put_count(area, next, count)
}

// The records of the cells, at the front of the area.
fn put_cells(nodes: &[u16], area: &mut [u8]) -> usize
    requires { CellsFit nodes.now area.old }
    ensures { Stored area.old 0 (over (cell_bytes nodes.now) (length nodes.now / cell_nodes) 0) area.new result }
{
    let n = nodes.len() / CELL_NODES;
    let mut at: usize = 0;
    for k in 0..n {
        at = put_cell(area, at, nodes, k);
    }
    at
}

// The records of the edges, from a place on.
fn put_edges(ends: &[u16], counts: &[u16], from: usize, area: &mut [u8]) -> usize
    requires { EdgesFit ends.now counts.now from area.old }
    ensures { Stored area.old from (over (edge_bytes ends.now counts.now) (length counts.now) 0) area.new result }
{
    let mut at = from;
    for k in 0..counts.len() {
        at = put_edge(area, at, ends, counts, k);
    }
    at
}

// How many of the counts a byte does not hold.
fn wides_in(counts: &[u16]) -> usize
    ensures { result ≡ wides counts.now }
{
    let mut n: usize = 0;
    for count in counts {
        if BYTE_VALUES <= *count {
            n += 1;
        }
    }
    n
}

// The bytes of a bundle of so many cells and edges, of which so many are of kind 4.
fn bundle_size(cells: usize, edges: usize, wide: usize) -> u128
    ensures { result ≡ bundle_size cells edges wide }
{
    CELL_BYTES as u128 * cells as u128
        + EDGE_BYTES as u128 * edges as u128
        + wide as u128
        + END_BYTES as u128
}

// Writes the bundle of the lists and answers its number of bytes; a refusal leaves the area as it is.
pub fn write(nodes: &[u16], ends: &[u16], counts: &[u16], area: &mut [u8]) -> Result<usize, Refusal>
    ensures answer { written_numbers result ≡ write_answer nodes.now ends.now counts.now (length area.old) }
    ensures area { area.new ≡ area_left nodes.now ends.now counts.now area.old }
{
    let cells = nodes.len() / CELL_NODES;
    let edges = counts.len();
    if nodes.len() % CELL_NODES != 0
        || ends.len() % EDGE_ENDS != 0
        || ends.len() / EDGE_ENDS != edges
    {
        return Err(Row::Records.at(0));
    }
    let size = bundle_size(cells, edges, wides_in(counts));
    if (area.len() as u128) < size {
        return Err(Row::BundleArea.at(size.min(MOST) as usize));
    }
    let from = put_cells(nodes, area);
    let stop = put_edges(ends, counts, from, area);
    Ok(put_head(area, stop, Kind::End))
}

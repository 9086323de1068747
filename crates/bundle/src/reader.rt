// The bundle reader: what the bytes hold, then the lists.
ghost use Rattle.std.specs.Prelude.{◌≡◌, ◌+◌, ◌<◌, length};
ghost use Rattle.counting.specs.work.Stored.{Stored};
ghost use Rattle.counting.specs.Stored.{filled};
ghost use Rattle.bundle.specs.Record.{count_place, word};
ghost use Rattle.bundle.specs.Bundle.{record_start, run, leading_words, edges_from, edges, looks_from, bundle_answer, read_answer, nodes_of, ends_of, count_after, written_over, nodes_left, ends_left, counts_left, contents_numbers};
ghost use Rattle.bundle.specs.work.Kinds.{section_number};
ghost use Rattle.bundle.specs.work.Needed.{next_in, WordsLent, CellsLent, EdgesLent, LaidOut};

use crate::kinds::Section;
use crate::looks::{Looked, first_stray, replace};
use crate::records::{
    CELL_NODES, COUNT_PLACE, EDGE_ENDS, HEAD_BYTES, LOOK_BYTES, WORD_BYTES, body_at, record_at,
    word_at,
};
use answer::{Refusal, Row};

// How many cells and edges a bundle has.
#[derive(Clone, Copy, Debug, PartialEq, Eq)]
pub struct Lists {
    pub cells: usize,
    pub edges: usize,
}

// Where the record after the one at a place starts, if one of the section stands there.
fn next_in(bytes: &[u8], at: usize, section: Section) -> Option<usize>
    ensures { result ≡ next_in bytes.now (section_number section) at }
{
    match record_at(bytes, at) {
        Ok(record) if record.kind.section() == section => Some(record.next),
        _ => None,
    }
}

// Records of one section in a row: how many, and where they stop.
#[derive(Clone, Copy)]
struct Run {
    count: usize,
    stop: usize,
}

// The records of a section from a place on.
fn run_from(bytes: &[u8], from: usize, section: Section) -> Run
    ensures { (result.count ≡ run bytes.now (section_number section) from) × (result.stop ≡ record_start bytes.now from result.count) }
{
    let mut at = from;
    let mut count: usize = 0;
    while let Some(next) = next_in(bytes, at, section) {
        count += 1;
        at = next;
    }
    Run { count, stop: at }
}

// The cells, the edges and the looks of the bytes; each section starts where the one before it stops.
#[derive(Clone, Copy)]
struct Layout {
    cells: Run,
    edges: Run,
    looks: Run,
}

fn layout_of(bytes: &[u8]) -> Layout
    ensures { LaidOut bytes.now result.cells.count result.cells.stop result.edges.count result.edges.stop result.looks.count result.looks.stop }
{
    let cells = run_from(bytes, 0, Section::Cells);
    let edges = run_from(bytes, cells.stop, Section::Edges);
    let looks = run_from(bytes, edges.stop, Section::Looks);
    Layout {
        cells,
        edges,
        looks,
    }
}

// How many cells and edges the bundle has, or refusal 13 or 22; no list is lent.
pub fn scan(bytes: &[u8]) -> Result<Lists, Refusal>
    ensures { contents_numbers result ≡ bundle_answer bytes.now }
{
    let Layout {
        cells,
        edges,
        looks,
    } = layout_of(bytes);
    let Some(next) = next_in(bytes, looks.stop, Section::End) else {
        return Err(Row::Records.at(looks.stop));
    };
    if next != bytes.len() {
        return Err(Row::Records.at(next));
    }
    let looked = Looked {
        bytes,
        from: cells.stop,
        edges: edges.count,
        base: edges.stop,
        looks: looks.count,
    };
    if let Some(k) = first_stray(&looked) {
        return Err(Row::Look.at(edges.stop + LOOK_BYTES * k));
    }
    Ok(Lists {
        cells: cells.count,
        edges: edges.count,
    })
}

// Fills n entries of a list, from a place on, with the first numbers of a body.
fn fill_words(body: &[u8], n: usize, list: &mut [u16], at: usize)
    requires { WordsLent body.now n list.old at }
    ensures { Stored list.old at (leading_words n body.now) list.new (at + n) }
{
    for i in 0..n {
        list[at + i] = word_at(body, WORD_BYTES * i);
    }
}

// The count in the body of an edge: the byte that ends it, or 16 bits.
fn count_in(body: &[u8]) -> u16
    requires { count_place < length body.now }
    ensures { result ≡ word body.now count_place }
{
    if body.len() == COUNT_PLACE + 1 {
        body[COUNT_PLACE] as u16
    } else {
        word_at(body, COUNT_PLACE)
    }
}

// Fills the nodes of the cells, and answers where the edges start.
fn fill_cells(bytes: &[u8], count: usize, nodes: &mut [u16]) -> usize
    requires { CellsLent bytes.now count nodes.old }
    ensures value { result ≡ edges_from bytes.now }
    ensures nodes_after { nodes.new ≡ written_over (nodes_of bytes.now) nodes.old }
{
    let mut at: usize = 0;
    for k in 0..count {
        let body = body_at(bytes, at);
        fill_words(body, CELL_NODES, nodes, CELL_NODES * k);
        at += HEAD_BYTES + body.len();
    }
    at
}

// Fills the ends and the own counts of the edges, whose records start at from, and answers where the looks start.
fn fill_edges(
    bytes: &[u8],
    from: usize,
    count: usize,
    ends: &mut [u16],
    counts: &mut [u16],
) -> usize
    requires { EdgesLent bytes.now from count ends.old counts.old }
    ensures value { result ≡ looks_from bytes.now }
    ensures ends_after { ends.new ≡ written_over (ends_of bytes.now) ends.old }
    ensures counts_after { counts.new ≡ filled (count_after bytes.now 0) (edges bytes.now) counts.old }
{
    let mut at = from;
    for k in 0..count {
        let body = body_at(bytes, at);
        fill_words(body, EDGE_ENDS, ends, EDGE_ENDS * k);
        counts[k] = count_in(body);
        at += HEAD_BYTES + body.len();
    }
    at
}

// Fills the lists with the bundle's cells and edges, and answers how many there are; a refusal leaves the lists as they are.
pub fn read(
    bytes: &[u8],
    nodes: &mut [u16],
    ends: &mut [u16],
    counts: &mut [u16],
) -> Result<Lists, Refusal>
    ensures answer { contents_numbers result ≡ read_answer bytes.now (length nodes.old) (length ends.old) (length counts.old) }
    ensures nodes { nodes.new ≡ nodes_left bytes.now nodes.old ends.old counts.old }
    ensures ends { ends.new ≡ ends_left bytes.now nodes.old ends.old counts.old }
    ensures counts { counts.new ≡ counts_left bytes.now nodes.old ends.old counts.old }
{
    let lists = scan(bytes)?;
    if nodes.len() / CELL_NODES < lists.cells
        || ends.len() / EDGE_ENDS < lists.edges
        || counts.len() < lists.edges
    {
        return Err(Row::BundleArea.at(0));
    }
    let from = fill_cells(bytes, lists.cells, nodes);
    let base = fill_edges(bytes, from, lists.edges, ends, counts);
    let looked = Looked {
        bytes,
        from,
        edges: lists.edges,
        base,
        looks: run_from(bytes, base, Section::Looks).count,
    };
    replace(&looked, counts);
    Ok(lists)
}

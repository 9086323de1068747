// One record: its kind and the next start, and its body.
ghost use Rattle.std.specs.Prelude.{◌≡◌, ◌+◌, ◌<◌, length};
ghost use Rattle.bundle.specs.Record.{word, kind_number, may_have, count_at, record_answer, record_numbers, body, body_start};
ghost use Rattle.bundle.specs.work.Needed.{WideLent};

use crate::kinds::{CELL_LENGTH, EDGE_LENGTH, END_LENGTH, Kind, LOOK_LENGTH};
use answer::{Refusal, Row};

// A whole record: its kind, and where the next one starts.
#[derive(Clone, Copy, Debug, PartialEq, Eq)]
pub struct Record {
    pub kind: Kind,
    pub next: usize,
}

// The values of a byte.
pub(crate) const BYTE_VALUES: u16 = 256;

// The bytes of a number of 16 bits; and of length and kind, which stand before the body.
pub(crate) const WORD_BYTES: usize = 2;

pub const HEAD_BYTES: usize = WORD_BYTES + WORD_BYTES;

// The bytes of a whole record of each kind but 4, which has a byte more than kind 2.
pub const CELL_BYTES: usize = WORD_BYTES + CELL_LENGTH as usize;

pub const EDGE_BYTES: usize = WORD_BYTES + EDGE_LENGTH as usize;

pub const END_BYTES: usize = WORD_BYTES + END_LENGTH as usize;

pub(crate) const LOOK_BYTES: usize = WORD_BYTES + LOOK_LENGTH as usize;

// The numbers that a cell has in the list of nodes, and an edge in the list of ends.
pub const CELL_NODES: usize = 4;

pub const EDGE_ENDS: usize = 2;

// Where the count stands in the body of an edge or a look.
pub(crate) const COUNT_PLACE: usize = WORD_BYTES * EDGE_ENDS;

// The number of 16 bits at a place, low byte first.
pub(crate) fn word_at(bytes: &[u8], at: usize) -> u16
    requires { at + 1 < length bytes.now }
    ensures { result ≡ word bytes.now at }
{
    u16::from_le_bytes([bytes[at], bytes[at + 1]])
}

// Whether the record of a kind at a start has a count that the kind may have.
fn may_have(bytes: &[u8], start: usize, kind: Kind) -> bool
    requires { WideLent bytes.now start (kind_number kind) }
    ensures { result ≡ may_have (kind_number kind) (count_at bytes.now start) }
{
    match kind {
        Kind::Wide => BYTE_VALUES <= word_at(bytes, start + HEAD_BYTES + COUNT_PLACE),
        _ => true,
    }
}

// The record at a start, or refusal 13.
pub fn record_at(bytes: &[u8], start: usize) -> Result<Record, Refusal>
    ensures { record_numbers result ≡ record_answer bytes.now start }
{
    if bytes.len() <= start {
        return Err(Row::Records.at(bytes.len()));
    }
    let broken = Err(Row::Records.at(start));
    if bytes.len() - start < HEAD_BYTES {
        return broken;
    }
    let length = word_at(bytes, start);
    let Ok(kind) = Kind::try_from(word_at(bytes, start + WORD_BYTES)) else {
        return broken;
    };
    if length != kind.length() {
        return broken;
    }
    let size = WORD_BYTES + length as usize;
    if bytes.len() - start < size {
        return broken;
    }
    if !may_have(bytes, start, kind) {
        return broken;
    }
    Ok(Record {
        kind,
        next: start + size,
    })
}

// The body of the record at a start, as that part of the bytes; the empty part at their front where no record stands there.
pub fn body_at(bytes: &[u8], start: usize) -> &[u8]
    ensures contents { result.now ≡ body bytes.now start }
    ensures place { (result.ref_ptr.0 ≡ bytes.entry.ref_ptr.0) × (result.ref_ptr.1 ≡ body_start bytes.now start + bytes.entry.ref_ptr.1) }
{
    match record_at(bytes, start) {
        Ok(record) => &bytes[start + HEAD_BYTES..record.next],
        Err(_) => &bytes[..0],
    }
}

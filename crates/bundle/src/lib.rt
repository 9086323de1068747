// Bundles: records, the reader and the writer.
#![tactic(auto)]

mod kinds;
mod looks;
mod reader;
mod records;
mod writer;

pub use kinds::{Kind, UnknownKind};
pub use reader::{Lists, read, scan};
pub use records::{
    CELL_BYTES, CELL_NODES, EDGE_BYTES, EDGE_ENDS, END_BYTES, HEAD_BYTES, Record, body_at,
    record_at,
};
pub use writer::write;

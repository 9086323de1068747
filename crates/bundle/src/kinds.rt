// The kinds of records, and the sections of a bundle that they stand in.
ghost use Rattle.std.specs.Prelude.{◌≡◌};
ghost use Rattle.bundle.specs.Record.{length_of, kind_number};
ghost use Rattle.bundle.specs.work.Kinds.{Names};
ghost use Rattle.bundle.specs.Bundle.{section_of};
ghost use Rattle.bundle.specs.work.Kinds.{section_number};

// The kinds, by their numbers. An edge is wide where a byte does not hold its count; a look is a later one at an edge, with a new count.
#[derive(Clone, Copy, Debug, PartialEq, Eq)]
pub enum Kind {
    Cell = 1,
    Edge = 2,
    End = 3,
    Wide = 4,
    Look = 5,
}

// A number that no kind has.
#[derive(Clone, Copy, Debug, PartialEq, Eq)]
pub struct UnknownKind(pub u16);

// The lengths of the kinds, which count the bytes after the length itself.
pub(crate) const CELL_LENGTH: u16 = 10;

pub(crate) const EDGE_LENGTH: u16 = 7;

pub(crate) const END_LENGTH: u16 = 2;

const WIDE_LENGTH: u16 = 8;

pub(crate) const LOOK_LENGTH: u16 = 8;

impl TryFrom<u16> for Kind {
    type Error = UnknownKind;

    ghost try_from_gives = { Names };

    fn try_from(number: u16) -> Result<Kind, UnknownKind> {
        match number {
            1 => Ok(Kind::Cell),
            2 => Ok(Kind::Edge),
            3 => Ok(Kind::End),
            4 => Ok(Kind::Wide),
            5 => Ok(Kind::Look),
            _ => Err(UnknownKind(number)),
        }
    }
}

// The sections of a bundle, in their order.
#[derive(Clone, Copy, Debug, PartialEq, Eq)]
pub(crate) enum Section {
    Cells = 1,
    Edges = 2,
    Looks = 3,
    End = 4,
}

impl Kind {
    // The kind's number.
    pub fn number(self) -> u16
        ensures { result ≡ kind_number self }
    {
        self as u16
    }

    // The length of a record of the kind.
    pub(crate) fn length(self) -> u16
        ensures { result ≡ length_of (kind_number self) }
    {
        match self {
            Kind::Cell => CELL_LENGTH,
            Kind::Edge => EDGE_LENGTH,
            Kind::End => END_LENGTH,
            Kind::Wide => WIDE_LENGTH,
            Kind::Look => LOOK_LENGTH,
        }
    }

    // The section that records of the kind stand in.
    pub(crate) fn section(self) -> Section
        ensures { section_number result ≡ section_of (kind_number self) }
    {
        match self {
            Kind::Cell => Section::Cells,
            Kind::Edge | Kind::Wide => Section::Edges,
            Kind::Look => Section::Looks,
            Kind::End => Section::End,
        }
    }
}

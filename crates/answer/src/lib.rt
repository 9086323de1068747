// Refusals: the rows of the table of refusals, and the numbers that an answer is read as. Definitions in specs/, laws in proofs/.
#![tactic(auto)]

ghost use Rattle.std.specs.Prelude.{◌≡◌};
ghost use Rattle.answer.specs.Refusal.{row_number};

// The rows, by the names that the C header has for them, with their numbers.
#[derive(Clone, Copy, Debug, PartialEq, Eq)]
pub enum Row {
    CellList = 1,
    EdgeList = 2,
    CellNodes = 3,
    CellRepeated = 4,
    FaceCrowded = 5,
    EdgeOrder = 6,
    EdgeMissing = 7,
    EdgeStray = 8,
    EdgeUnlinked = 9,
    Crossings = 10,
    NoCell = 11,
    MeshArea = 12,
    Records = 13,
    BundleArea = 14,
    PlaceLists = 15,
    NodePlace = 16,
    Fraction = 17,
    Count = 18,
    ShadingArea = 19,
    NoShading = 20,
    NoEdge = 21,
    Look = 22,
    Points = 23,
    ChainArea = 24,
    Cuts = 25,
    NoRun = 26,
}

// A refusal: its row, and the place of the fault.
#[derive(Clone, Copy, Debug, PartialEq, Eq)]
pub struct Refusal {
    pub row: Row,
    pub place: usize,
}

impl Row {
    // The row's number in the table.
    pub fn number(self) -> u8
        ensures { result ≡ row_number self }
    {
        self as u8
    }

    // The row's refusal at a place.
    pub fn at(self, place: usize) -> Refusal
        ensures { result ≡ record { row = self; place = place } }
    {
        Refusal { row: self, place }
    }
}

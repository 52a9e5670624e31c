// The regimes, and the rows of the entailment patterns.
ghost use Rattle.std.specs.Prelude.{◌≡◌, slice_get};
ghost use Rattle.entailment.specs.Rows.{rows, uses};

// Which rows and which start set apply.
#[derive(Clone, Copy, PartialEq, Eq, Debug)]
pub enum Regime {
    Simple,
    Rdf,
    Rdfs,
}

// The rows of the entailment patterns, in their order.
#[derive(Clone, Copy, PartialEq, Eq, Debug)]
pub enum Row {
    RdfD2,
    Rdfs2,
    Rdfs3,
    Rdfs4a,
    Rdfs4b,
    Rdfs5,
    Rdfs6,
    Rdfs7,
    Rdfs8,
    Rdfs9,
    Rdfs10,
    Rdfs11,
    Rdfs12,
    Rdfs13,
}

// The rows in their order.
pub const ROWS: [Row; 14] = [
    Row::RdfD2,
    Row::Rdfs2,
    Row::Rdfs3,
    Row::Rdfs4a,
    Row::Rdfs4b,
    Row::Rdfs5,
    Row::Rdfs6,
    Row::Rdfs7,
    Row::Rdfs8,
    Row::Rdfs9,
    Row::Rdfs10,
    Row::Rdfs11,
    Row::Rdfs12,
    Row::Rdfs13,
];

impl Row {
    // The row's place in the list, from 0.
    pub fn place(self) -> u8
        ensures { slice_get rows result ≡ Some self }
    {
        self as u8
    }

    // The row at a place; none past the last.
    pub fn at(place: u8) -> Option<Row>
        ensures { result ≡ slice_get rows place }
    {
        ROWS.get(usize::from(place)).copied()
    }
}

impl Regime {
    // Whether the regime has the row.
    pub fn has_row(self, row: Row) -> bool
        ensures { result ≡ uses self row }
    {
        match self {
            Regime::Simple => false,
            Regime::Rdf => matches!(row, Row::RdfD2),
            Regime::Rdfs => true,
        }
    }
}

// Why a call on a book is refused.
ghost use Rattle.std.specs.Prelude.{◌≡◌};
ghost use Rattle.ledger.specs.Numbers.{number};

#[derive(Clone, Copy, PartialEq, Eq, Debug)]
pub enum Refusal {
    // no sheet is open, or the sheet shown has another book number
    NoSheet = 10,
    // the bytes are no lawful spelling
    NotLawful = 11,
    // a new term, and there are as many as the side
    TermsFull = 12,
    // a new name, and with it the spellings are too long
    BytesFull = 13,
    // a new label, and every label record is taken
    LabelsFull = 14,
    // a number without a term
    NoTerm = 15,
    // a literal as subject, or a predicate that is no IRI
    NotSayable = 16,
    // a new triple, and 512 stand
    TriplesFull = 17,
    // the ledger has more than 512 triples
    TooMany = 19,
    // open, and a sheet is open already
    AlreadyOpen = 20,
    // close, and a sheet is open
    StillOpen = 21,
    // the closure exceeds the store's capacity
    Capacity = 22,
}

impl Refusal {
    // The refusal number.
    pub fn number(self) -> u8
        ensures { result ≡ number self }
    {
        self as u8
    }
}

impl From<names::Refusal> for Refusal {
    ghost use Rattle.ledger.specs.Numbers.{of_names};

    ghost from_gives = { λ f e. e ≡ of_names f };

    fn from(refusal: names::Refusal) -> Refusal {
        match refusal {
            names::Refusal::NotLawful => Refusal::NotLawful,
            names::Refusal::Terms => Refusal::TermsFull,
            names::Refusal::Bytes => Refusal::BytesFull,
        }
    }
}

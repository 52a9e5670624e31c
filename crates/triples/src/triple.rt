// Triples and their codes.
ghost use Rattle.std.specs.Prelude.{◌≡◌, ◌<◌};
ghost use Rattle.triples.specs.Codes.{code_of, codes, Inside, width};
ghost use Rattle.triples.specs.declared.triple.Triple.{Triple as Of};

// The number of a term in its book, below the width.
pub type TermNumber = u8;

// The code of a triple. Triples are ordered by their codes.
pub type Code = u32;

// How many term numbers there are. The place values of a code follow from it.
pub const WIDTH: Code = 256;

// Three term numbers.
#[derive(Clone, Copy, PartialEq, Eq, Debug)]
pub struct Triple {
    pub subject: TermNumber,
    pub predicate: TermNumber,
    pub object: TermNumber,
}

impl Triple {
    // The code, which no other triple has.
    pub fn code(self) -> Code
        ensures is { result ≡ code_of self }
        ensures below { result < codes }
        ensures only { (t : Of) → Inside width t → code_of t ≡ result → t ≡ self }
    {
        WIDTH * WIDTH * Code::from(self.subject)
            + WIDTH * Code::from(self.predicate)
            + Code::from(self.object)
    }
}

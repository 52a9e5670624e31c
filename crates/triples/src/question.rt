// Questions about a set of triples.
ghost use Rattle.std.specs.Prelude.{Decides};
ghost use Rattle.triples.specs.Questions.{Fit, Fits, Asked};

use crate::triple::{Code, TermNumber, Triple};

// For each position a term, or free.
#[derive(Clone, Copy, PartialEq, Eq, Debug)]
pub struct Pattern {
    pub subject: Option<TermNumber>,
    pub predicate: Option<TermNumber>,
    pub object: Option<TermNumber>,
}

// A pattern, and the lowest code that an answer may have.
#[derive(Clone, Copy, PartialEq, Eq, Debug)]
pub struct Question {
    pub lowest: Code,
    pub pattern: Pattern,
}

// Whether a term fits a position.
pub fn fits_position(position: Option<TermNumber>, term: TermNumber) -> bool
    ensures { Decides result (Fit position term) }
{
    position.is_none_or(|wanted| term == wanted)
}

impl Pattern {
    // Every triple fits.
    pub const FREE: Pattern = Pattern {
        subject: None,
        predicate: None,
        object: None,
    };

    pub fn fits(self, triple: Triple) -> bool
        ensures { Decides result (Fits self triple) }
    {
        fits_position(self.subject, triple.subject)
            && fits_position(self.predicate, triple.predicate)
            && fits_position(self.object, triple.object)
    }
}

impl Question {
    // Whether the triple answers the question. The positions are tested before a code is computed.
    pub fn answers(self, triple: Triple) -> bool
        ensures { Decides result (Asked self triple) }
    {
        self.pattern.fits(triple) && self.lowest <= triple.code()
    }
}

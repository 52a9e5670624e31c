// A term as it is seen.
ghost use Rattle.std.specs.Prelude.{◌≡◌, Decides};
ghost use Rattle.names.specs.Terms.{term_spelled, HasSpelling};
ghost use Rattle.names.specs.Calls.{term_of};

// What a term is, a name by its spelling.
#[derive(Clone, Copy, PartialEq, Eq, Debug)]
pub enum View<'a> {
    Iri(&'a [u8]),
    Literal(&'a [u8]),
    Blank,
}

impl<'a> View<'a> {
    // The term that the bytes spell; no bytes spell a blank.
    pub(crate) fn of(spelling: &'a [u8]) -> View<'a>
        ensures { term_of result ≡ term_spelled spelling.now }
    {
        match spelling {
            [] => View::Blank,
            [b'<', ..] => View::Iri(spelling),
            _ => View::Literal(spelling),
        }
    }

    // Whether the term is a name with this spelling.
    pub(crate) fn has_spelling(self, spelling: &[u8]) -> bool
        ensures { Decides result (HasSpelling spelling.now (term_of self.entry)) }
    {
        match self {
            View::Iri(own) | View::Literal(own) => own == spelling,
            View::Blank => false,
        }
    }
}

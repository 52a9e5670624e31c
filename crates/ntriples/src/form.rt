// The forms of terms. A form is a type, so that what all terms have in common is written and proved once.
ghost use Rattle.std.specs.Prelude.{◌≡◌, ◌+◌, ◌^◌, ◌<◌, ◌≤◌, length, MatchResult};
ghost use Rattle.grammar.specs.Regular.{Is};
ghost use Rattle.grammar.specs.Readings.{Kind, an_iri, a_label, a_literal, production};
ghost use Rattle.grammar.specs.Scanner.{Next, State, in_term, Ended, piece};

use crate::cursor::Cursor;
use crate::fault::Fault;
use crate::token::{Located, Token};

// IRIREF, BLANK_NODE_LABEL or a literal.
pub(crate) trait Form {
    ghost use Rattle.ntriples.specs.Answers.{kind_of, bytes_of};
    ghost use Rattle.ntriples.specs.Cursors.{NextIs, Finds, Enters, ScansTo, first_byte, Opens};

    // the kind of the terms of the form
    ghost kind: { Kind };

    // The first byte of a term.
    fn first() -> u8
        ensures { result ≡ first_byte kind };

    // Where the term ends whose first byte is at `from`.
    fn end<'a>(from: Cursor<'a>) -> Result<Cursor<'a>, Fault>
        requires here { NextIs from (first_byte kind) }
        ensures found { Finds (production kind) from.entry result }
        ensures goes { (s : State) (n : Next) (t : State) → Opens kind n t → Enters s from.entry t → ScansTo s from.entry (λ e. Ended s from.entry.line.now e n) result };

    // The token of the bytes of a term.
    fn token<'a>(bytes: &'a [u8]) -> Token<'a>
        ensures kind { kind_of result ≡ kind }
        ensures bytes { bytes_of result ≡ bytes.now };
}

pub(crate) struct Iri;

impl Form for Iri {
    ghost kind = { an_iri };

    fn first() -> u8 {
        b'<'
    }

    fn end<'a>(from: Cursor<'a>) -> Result<Cursor<'a>, Fault> {
        from.iri()
    }

    fn token<'a>(bytes: &'a [u8]) -> Token<'a> {
        Token::Iri(bytes)
    }
}

pub(crate) struct Label;

impl Form for Label {
    ghost kind = { a_label };

    fn first() -> u8 {
        b'_'
    }

    fn end<'a>(from: Cursor<'a>) -> Result<Cursor<'a>, Fault> {
        from.label()
    }

    fn token<'a>(bytes: &'a [u8]) -> Token<'a> {
        Token::Label(bytes)
    }
}

pub(crate) struct Literal;

impl Form for Literal {
    ghost kind = { a_literal };

    fn first() -> u8 {
        b'"'
    }

    fn end<'a>(from: Cursor<'a>) -> Result<Cursor<'a>, Fault> {
        from.literal()
    }

    fn token<'a>(bytes: &'a [u8]) -> Token<'a> {
        Token::Literal(bytes)
    }
}

// A term of a line, and its places.
#[derive(Clone, Copy)]
pub(crate) struct Found<'a> {
    pub token: Token<'a>,
    pub start: Cursor<'a>,
    pub end: Cursor<'a>,
}

impl<'a> Found<'a> {
    // The token with its offset in the document, where its line begins at `base`.
    pub fn located(self, base: usize) -> Located<Token<'a>>
        requires fits { base + self.start.pos < 2 ^ 64 }
        ensures item { result.item ≡ self.entry.token }
        ensures offset { result.offset ≡ base + self.entry.start.pos }
    {
        Located {
            item: self.token,
            offset: base + self.start.pos,
        }
    }
}

impl<'a> Cursor<'a> {
    ghost use Rattle.ntriples.specs.Answers.{kind_of, bytes_of};
    ghost use Rattle.ntriples.specs.Cursors.{NextIs, OrFault, Spans, Enters, HaltsBy, first_byte, Opens};

    // The term of the form, whose first byte is here.
    pub fn term<F: Form>(self) -> Result<Found<'a>, Fault>
        requires here { NextIs self (first_byte F.kind) }
        ensures found { let here = self.entry in OrFault here.line.now (λ x. (x.start ≡ here) × Spans (production F.kind) here x.end × (kind_of x.token ≡ F.kind) × (bytes_of x.token ≡ piece here.line.now here.pos x.end.pos)) result }
        ensures goes { (s : State) (n : Next) (t : State) → Opens F.kind n t → Enters s self.entry t → MatchResult result (λ x. Ended s self.entry.line.now x.end.pos n) (λ f. HaltsBy in_term s self.entry f) }
    {
        let end = F::end(self)?;
        Ok(Found {
            token: F::token(self.up_to(end)),
            start: self,
            end,
        })
    }
}

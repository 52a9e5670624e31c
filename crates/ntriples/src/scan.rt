// Where the terms of a line end: one method for each production of a term.
ghost use Rattle.std.specs.Prelude.{◌≡◌, ◌≤◌, length, MatchResult};
ghost use Rattle.grammar.specs.Regular.{Is};
ghost use Rattle.grammar.specs.Productions.{part, IRIREF, BLANK_NODE_LABEL, STRING_LITERAL_QUOTE, LANGTAG, ECHAR, subtag, suffix, literal, datatype};
ghost use Rattle.grammar.specs.Scanner.{Next, dot, Role, follows, State, iri, before, under, string, quoted, at, caret, Stands, Ended, Tagged, piece};

use crate::cursor::Cursor;
use crate::fault::Fault;
use grammar::class::{Alnums, Class, EscapeLetters, IriChars, LabelChars, Letters, StringChars};

impl<'a> Cursor<'a> {
    ghost use Rattle.ntriples.specs.Cursors.{NextIs, OrFault, Finds, Enters, ScansTo};

    // IRIREF, whose `<` is here.
    pub fn iri(self) -> Result<Cursor<'a>, Fault>
        requires here { NextIs self 60 }
        ensures found { Finds (IRIREF part) self.entry result }
        ensures goes { (s : State) (n : Next) → Enters s self.entry (iri n) → ScansTo s self.entry (λ e. Stands s self.entry.line.now e (before n)) result }
    {
        let end = self.advance().past::<IriChars>();
        match end.peek() {
            Some(b'\\') => Err(end.advance().stuck_escape()),
            _ => end.expect(b'>'),
        }
    }

    // BLANK_NODE_LABEL, whose `_` is here.
    pub fn label(self) -> Result<Cursor<'a>, Fault>
        requires here { NextIs self 95 }
        ensures found { Finds BLANK_NODE_LABEL self.entry result }
        ensures goes { (s : State) (r : Role) → Enters s self.entry (under r) → ScansTo s self.entry (λ e. Ended s self.entry.line.now e (follows r)) result }
    {
        self.advance().expect(b':')?.past_some::<LabelChars>()
    }

    // ECHAR, whose backslash is here.
    fn escape(self) -> Result<Cursor<'a>, Fault>
        requires here { NextIs self 92 }
        ensures found { Finds ECHAR self.entry result }
        ensures goes { (s : State) → Stands s self.entry.line.now self.entry.pos string → ScansTo s self.entry (λ e. Stands s self.entry.line.now e string) result }
    {
        let letter = self.advance();
        match letter.peek() {
            Some(b) if EscapeLetters::contains(b) => Ok(letter.advance()),
            _ => Err(letter.stuck_escape()),
        }
    }

    // STRING_LITERAL_QUOTE, whose first quote is here.
    fn string(self) -> Result<Cursor<'a>, Fault>
        requires here { NextIs self 34 }
        ensures found { Finds (STRING_LITERAL_QUOTE part) self.entry result }
        ensures goes { (s : State) → Enters s self.entry string → ScansTo s self.entry (λ e. Stands s self.entry.line.now e quoted) result }
    {
        let mut end = self.advance().past::<StringChars>();
        while let Some(b'\\') = end.peek() {
            end = end.escape()?.past::<StringChars>();
        }
        end.expect(b'"')
    }

    // A hyphen of a language tag, which is here, and the letters and digits after it.
    fn subtag(self) -> Result<Cursor<'a>, Fault>
        requires here { NextIs self 45 }
        ensures found { Finds subtag self.entry result }
        ensures goes { (s : State) → Tagged s self.entry.line.now self.entry.pos → ScansTo s self.entry (λ e. Tagged s self.entry.line.now e) result }
    {
        self.advance().past_some::<Alnums>()
    }

    // LANGTAG, whose `@` is here.
    fn tag(self) -> Result<Cursor<'a>, Fault>
        requires here { NextIs self 64 }
        ensures found { Finds LANGTAG self.entry result }
        ensures goes { (s : State) → Enters s self.entry at → ScansTo s self.entry (λ e. Ended s self.entry.line.now e dot) result }
    {
        let mut end = self.advance().past_some::<Letters>()?;
        while let Some(b'-') = end.peek() {
            end = end.subtag()?;
        }
        Ok(end)
    }

    // `^^` and the datatype of a literal, whose first `^` is here.
    fn datatype(self) -> Result<Cursor<'a>, Fault>
        requires here { NextIs self 94 }
        ensures found { Finds (datatype part) self.entry result }
        ensures goes { (s : State) → Enters s self.entry caret → ScansTo s self.entry (λ e. Ended s self.entry.line.now e dot) result }
    {
        let bracket = self.advance().expect(b'^')?;
        match bracket.peek() {
            Some(b'<') => bracket.iri(),
            _ => Err(bracket.stuck()),
        }
    }

    // What may follow the string of a literal.
    fn suffix(self) -> Result<Cursor<'a>, Fault>
        ensures found { let here = self.entry in OrFault here.line.now (λ e. (e.line ≡ here.line) × (here.pos ≤ e.pos) × Is (suffix part) (piece here.line.now here.pos e.pos)) result }
        ensures goes { (s : State) → Stands s self.entry.line.now self.entry.pos quoted → ScansTo s self.entry (λ e. Ended s self.entry.line.now e dot) result }
    {
        match self.peek() {
            Some(b'@') => self.tag(),
            Some(b'^') => self.datatype(),
            _ => Ok(self),
        }
    }

    // A literal, whose first quote is here.
    pub fn literal(self) -> Result<Cursor<'a>, Fault>
        requires here { NextIs self 34 }
        ensures found { Finds (literal part) self.entry result }
        ensures goes { (s : State) → Enters s self.entry string → ScansTo s self.entry (λ e. Ended s self.entry.line.now e dot) result }
    {
        self.string()?.suffix()
    }
}

// One line, without its end, as the grammar reads it.
ghost use Rattle.std.specs.Prelude.{◌≡◌, ◌+◌, ◌^◌, ◌<◌, ◌≤◌, false, length, IfOk, IfErr, MatchResult, ◌≢◌, slice_index};
ghost use Rattle.grammar.specs.Regular.{inside, Is};
ghost use Rattle.grammar.specs.Productions.{part, blank, subject, predicate, object, comment, rest};
ghost use Rattle.grammar.specs.Readings.{Reads};
ghost use Rattle.grammar.specs.Scanner.{verb, thing, dot, State, start, ended, remark, in_line, Stands, Halts, Ended, piece, RunTo};
ghost use Rattle.ntriples.specs.Answers.{number, line_reading, reading};

use crate::cursor::Cursor;
use crate::fault::Fault;
use crate::form::{Found, Iri, Label, Literal};
use crate::token::{Line, Located, Statement};
use grammar::class::{Blanks, CommentChars};

impl<'a> Cursor<'a> {
    ghost use Rattle.ntriples.specs.Cursors.{NextIs, OrFault, FindsTerm, ScansTerm, Enters, HaltsBy};

    // The comment whose `#` is here, up to the line's end.
    fn comment(self) -> Result<(), Fault>
        requires here { NextIs self 35 }
        ensures found { let line = self.entry.line.now in OrFault line (λ _. Is comment (piece line self.entry.pos (length line))) result }
        ensures goes { (s : State) → Enters s self.entry remark → IfErr result (λ f. HaltsBy in_line s self.entry f) }
    {
        let end = self.advance().past::<CommentChars>();
        match end.peek() {
            None => Ok(()),
            Some(_) => Err(end.stuck()),
        }
    }

    // What may follow the dot, up to the line's end.
    fn rest(self) -> Result<(), Fault>
        ensures found { let line = self.entry.line.now in OrFault line (λ _. Is rest (piece line self.entry.pos (length line))) result }
        ensures goes { (s : State) → Stands s self.entry.line.now self.entry.pos ended → IfErr result (λ f. HaltsBy in_line s self.entry f) }
    {
        let end = self.past::<Blanks>();
        match end.peek() {
            None => Ok(()),
            Some(b'#') => end.comment(),
            Some(_) => Err(end.stuck()),
        }
    }

    // The subject, where no blank and no comment begins.
    fn subject(self) -> Result<Found<'a>, Fault>
        requires here { (self.pos < length self.line.now) × (inside blank (slice_index self.line.now self.pos) ≡ false) × (slice_index self.line.now self.pos ≢ 35) }
        ensures at { IfOk result (λ x. x.start.pos ≡ self.entry.pos) }
        ensures found { FindsTerm (subject part) self.entry result }
        ensures goes { (s : State) → Stands s self.entry.line.now self.entry.pos start → ScansTerm s self.entry verb result }
    {
        match self.peek() {
            Some(b'<') => self.term::<Iri>(),
            Some(b'_') => self.term::<Label>(),
            _ => Err(self.stuck()),
        }
    }

    // The predicate, after blanks.
    fn predicate(self) -> Result<Found<'a>, Fault>
        ensures found { FindsTerm (predicate part) self.entry result }
        ensures goes { (s : State) → Ended s self.entry.line.now self.entry.pos verb → ScansTerm s self.entry thing result }
    {
        let start = self.past::<Blanks>();
        match start.peek() {
            Some(b'<') => start.term::<Iri>(),
            _ => Err(start.stuck()),
        }
    }

    // The object, after blanks. It is as the predicate with three forms for one: a function for both would be told the forms.
    fn object(self) -> Result<Found<'a>, Fault>
        ensures found { FindsTerm (object part) self.entry result }
        ensures goes { (s : State) → Ended s self.entry.line.now self.entry.pos thing → ScansTerm s self.entry dot result }
    {
        let start = self.past::<Blanks>();
        match start.peek() {
            Some(b'<') => start.term::<Iri>(),
            Some(b'_') => start.term::<Label>(),
            Some(b'"') => start.term::<Literal>(),
            _ => Err(start.stuck()),
        }
    }

    // The triple of a line whose subject is here, after blanks, up to the line's end. The offsets of the triple
    // and its terms count from the document's first byte, a fault's from the line's.
    fn statement(self, base: usize) -> Result<Located<Statement<'a>>, Fault>
        requires here { (self.pos < length self.line.now) × (slice_index self.line.now self.pos ≢ 35) × RunTo blank self.line.now 0 self.pos }
        requires fits { base + length self.line.now < 2 ^ 64 }
        ensures { MatchResult result (λ t. Reads base self.entry.line.now (line_reading (Line.Triple t))) (λ f. (f.offset ≤ length self.entry.line.now) × HaltsBy in_line start self.entry f) }
    {
        let subject = self.subject()?;
        let predicate = subject.end.predicate()?;
        let object = predicate.end.object()?;
        let after = object.end.past::<Blanks>().expect(b'.')?;
        after.rest()?;
        let item = Statement {
            subject: subject.located(base),
            predicate: predicate.located(base),
            object: object.located(base),
        };
        Ok(Located {
            item,
            offset: base + self.pos,
        })
    }
}

// What the line holds; a fault's offset counts from the line's first byte. `base` stays a parameter: a cursor that carried it
// would have to keep the bound on it at every step, and only the places that are told need it.
fn content<'a>(line: &'a [u8], base: usize) -> Result<Line<'a>, Fault>
    requires fits { base + length line.now < 2 ^ 64 }
    ensures { MatchResult result (λ l. Reads base line.now (line_reading l)) (λ f. (f.offset ≤ length line.now) × Halts in_line start line.now f.offset (number f.kind)) }
{
    let from = Cursor::new(line).past::<Blanks>();
    match from.peek() {
        None => Ok(Line::Empty),
        Some(b'#') => {
            from.comment()?;
            Ok(Line::Comment)
        }
        Some(_) => {
            let triple = from.statement(base)?;
            Ok(Line::Triple(triple))
        }
    }
}

// What the line, whose first byte has the offset `base` in its document, is read as.
pub(crate) fn read<'a>(line: &'a [u8], base: usize) -> Result<Line<'a>, Fault>
    requires fits { base + length line.now < 2 ^ 64 }
    ensures { Reads base line.now (reading result) }
{
    content(line, base).map_err(|f| f.at_base(base))
}

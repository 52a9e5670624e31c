// A place in a line, from which the line is read on.
ghost use Rattle.std.specs.Prelude.{◌≡◌, ◌+◌, ◌<◌, ◌≤◌, Bool, false, length, slice_index, MatchOption, MatchResult, ◌≢◌};
ghost use Rattle.grammar.specs.Regular.{inside};
ghost use Rattle.grammar.specs.Scanner.{State, Sort, in_term, Stuck, StuckEscape, piece, RunTo};

use crate::fault::{Fault, FaultKind};
use grammar::class::{Class, UcharLetters};

// The offset of a byte of the line, or the line's end. A literal writes both fields, since `..` is not taken beside a ghost field.
#[derive(Clone, Copy)]
pub(crate) struct Cursor<'a> {
    pub line: &'a [u8],
    pub pos: usize,
    ghost within: { pos ≤ length line.now },
}

impl<'a> Cursor<'a> {
    ghost use Rattle.ntriples.specs.Cursors.{NextIs, HaltsBy, Refuses};

    // Where the line begins.
    pub fn new(line: &'a [u8]) -> Cursor<'a>
        ensures line { result.line ≡ line.entry }
        ensures start { result.pos ≡ 0 }
    {
        Cursor { line, pos: 0 }
    }

    // The byte at the place; none at the line's end.
    pub fn peek(self) -> Option<u8>
        ensures { MatchOption result (self.entry.pos ≡ length self.entry.line.now) (λ b. NextIs self.entry b) }
    {
        self.line.get(self.pos).copied()
    }

    // Past the byte at the place.
    pub fn advance(self) -> Cursor<'a>
        requires more { self.pos < length self.line.now }
        ensures same { result.line ≡ self.entry.line }
        ensures next { result.pos ≡ self.entry.pos + 1 }
    {
        Cursor {
            line: self.line,
            pos: self.pos + 1,
        }
    }

    // The bytes from here up to `end`.
    pub fn up_to(self, end: Cursor<'a>) -> &'a [u8]
        requires same { end.line ≡ self.line }
        requires forward { self.pos ≤ end.pos }
        ensures { result.now ≡ piece self.entry.line.now self.entry.pos end.entry.pos }
    {
        &self.line[self.pos..end.pos]
    }

    // Past the bytes of the class that stand here.
    pub fn past<C: Class>(self) -> Cursor<'a>
        ensures same { result.line ≡ self.entry.line }
        ensures run { RunTo C.ranges self.entry.line.now self.entry.pos result.pos }
    {
        Cursor {
            line: self.line,
            pos: self.pos + run_len::<C>(&self.line[self.pos..]),
        }
    }

    // The same, where at least one has to stand here.
    pub fn past_some<C: Class>(self) -> Result<Cursor<'a>, Fault>
        ensures { let here = self.entry in MatchResult result
            (λ e. (e.line ≡ here.line) × (here.pos < e.pos) × RunTo C.ranges here.line.now here.pos e.pos)
            (λ f. Refuses here (here.pos < length here.line.now → inside C.ranges (slice_index here.line.now here.pos) ≡ false) f) }
    {
        let end = self.past::<C>();
        if end.pos == self.pos {
            return Err(self.stuck());
        }
        Ok(end)
    }

    // Past the byte `b`, which has to stand here.
    pub fn expect(self, b: u8) -> Result<Cursor<'a>, Fault>
        ensures { let here = self.entry in MatchResult result
            (λ e. (e.line ≡ here.line) × (e.pos ≡ here.pos + 1) × NextIs here b)
            (λ f. Refuses here (here.pos < length here.line.now → slice_index here.line.now here.pos ≢ b) f) }
    {
        if self.peek() == Some(b) {
            Ok(self.advance())
        } else {
            Err(self.stuck())
        }
    }

    // The fault of a line that cannot go on here.
    pub fn stuck(self) -> Fault
        ensures place { result.offset ≡ self.entry.pos }
        ensures halts { (q : Sort → Bool) (s : State) → Stuck q s self.entry.line.now self.entry.pos → HaltsBy q s self.entry result }
    {
        let kind = match self.peek() {
            Some(128..) => FaultKind::HighByte,
            _ => FaultKind::Unexpected,
        };
        Fault {
            kind,
            offset: self.pos,
        }
    }

    // The same right after a backslash.
    pub fn stuck_escape(self) -> Fault
        ensures place { result.offset ≡ self.entry.pos }
        ensures halts { (s : State) → StuckEscape s self.entry.line.now self.entry.pos → HaltsBy in_term s self.entry result }
    {
        match self.peek() {
            Some(b) if UcharLetters::contains(b) => Fault {
                kind: FaultKind::UnicodeEscape,
                offset: self.pos,
            },
            _ => self.stuck(),
        }
    }
}

// How many bytes of the class stand at the front of the text. With `position` the reader was measured a fifth slower.
pub(crate) fn run_len<C: Class>(text: &[u8]) -> usize
    ensures { RunTo C.ranges text.now 0 result }
{
    for (i, b) in text.iter().enumerate() {
        if !C::contains(*b) {
            return i;
        }
    }
    text.len()
}

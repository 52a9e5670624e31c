// A spelling as far as it is written.
ghost use Rattle.std.specs.Prelude.{◌≡◌, ◌+◌, ◌<◌, ◌≤◌, [], ◌++◌, length, MatchResult};
ghost use Rattle.spelling.specs.Names.{escaped_byte, longest};
ghost use Rattle.spelling.specs.Writing.{with_word};

use crate::LONGEST;
use crate::canonical::TooLong;
use std::marker::Model;

// What is written of a spelling. No heap here: an array with room for the longest one, and how much of it is used, in a
// byte, so that the whole is small enough to be cleared without a call.
#[derive(Drop)]
pub(crate) struct Writer {
    bytes: [u8; LONGEST],
    len: u8,
}

// Clauses see the bytes that are written, and not the invariant, so those that need its bound say it.
impl Model for Writer {
    ghost use Rattle.std.specs.Prelude.{ℕ, ◌≤◌, List, take};
    ghost use Rattle.spelling.specs.Names.{longest};

    ghost Value = { List ℕ };

    ghost view = { λ w. take w.len w.bytes };

    ghost invariant = { λ w. w.len ≤ longest };
}

impl Writer {
    pub(crate) fn new() -> Writer
        ensures { result ≡ [] }
    {
        Writer {
            bytes: [0; LONGEST],
            len: 0,
        }
    }

    // Appends the text; where it does not fit, nothing is written.
    pub(crate) fn copy(&mut self, text: &[u8]) -> Result<(), TooLong>
        ensures fits { MatchResult result (λ _. length self.new ≤ longest) (λ _. longest < length self.old + length text.now) }
        ensures written { MatchResult result (λ _. self.new ≡ self.old ++ text.now) (λ _. self.new ≡ self.old) }
    {
        let start = usize::from(self.len);
        if LONGEST - start < text.len() {
            return Err(TooLong);
        }
        let end = start + text.len();
        self.bytes[start..end].copy_from_slice(text);
        self.len = end as u8;
        Ok(())
    }

    // Appends the byte in canonical form; where it does not fit, nothing is written.
    pub(crate) fn put(&mut self, byte: u8) -> Result<(), TooLong>
        ensures fits { MatchResult result (λ _. length self.new ≤ longest) (λ _. longest < length self.old + length (escaped_byte byte)) }
        ensures written { MatchResult result (λ _. self.new ≡ self.old ++ escaped_byte byte) (λ _. self.new ≡ self.old) }
    {
        match byte {
            b'\n' => self.copy(b"\\n"),
            b'\r' => self.copy(b"\\r"),
            b'"' => self.copy(b"\\\""),
            b'\\' => self.copy(b"\\\\"),
            _ => self.copy(&[byte]),
        }
    }

    // What is written.
    pub(crate) fn text(&self) -> &[u8]
        ensures written { result.now ≡ self.now }
        ensures short { length result.now ≤ longest }
    {
        &self.bytes[..usize::from(self.len)]
    }

    // Stores what is written at the start of `out`, and tells its length.
    pub(crate) fn store(&self, out: &mut [u8; LONGEST]) -> usize
        ensures length { result ≡ length self.now }
        ensures short { result ≤ longest }
        ensures stored { out.new ≡ with_word out.old 0 self.now }
    {
        let text = self.text();
        out[..text.len()].copy_from_slice(text);
        text.len()
    }
}

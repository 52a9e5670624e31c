// Writes the canonical spelling of a token's text.
ghost use Rattle.std.specs.Prelude.{◌≡◌, ℕ, ◌≢◌, List, [], ◌∷◌, MatchOption};
ghost use Rattle.grammar.specs.Readings.{an_iri, a_literal};
ghost use Rattle.spelling.specs.Names.{Escape, Name, Denotes};
ghost use Rattle.spelling.specs.Writing.{Splits, WroteName, written};

use crate::canonical::TooLong;
use crate::writer::Writer;

// The byte that an escape letter stands for.
fn decoded(letter: u8) -> Option<u8>
    ensures { MatchOption result ((c : ℕ) → ¬ Escape letter c) (λ c. Escape letter c) }
{
    match char::from(letter) {
        't' => Some(b'\t'),
        'b' => Some(b'\x08'),
        'n' => Some(b'\n'),
        'r' => Some(b'\r'),
        'f' => Some(b'\x0c'),
        '"' | '\'' | '\\' => Some(letter),
        _ => None,
    }
}

// The next byte of a lexical form, itself or as an escape, and what follows it; none at a quote.
fn next_byte(text: &[u8]) -> Option<(u8, &[u8])>
    ensures { MatchOption result ((c : ℕ) (w : List ℕ) → Splits text.now c w → text.now ≡ 34 ∷ w) (λ p. Splits text.now p.0 p.1.now × ((w : List ℕ) → text.now ≢ 34 ∷ w)) }
{
    match text {
        [b'\\', letter, rest @ ..] => Some((decoded(*letter)?, rest)),
        [] | [b'\\'] | [b'"', ..] => None,
        [byte, rest @ ..] => Some((*byte, rest)),
    }
}

// Writes the canonical spelling of an IRI, which is the text as it is.
pub(crate) fn write_iri(text: &[u8], writer: &mut Writer) -> Result<(), TooLong>
    requires fresh { writer.old ≡ [] }
    ensures { (n : Name) → Denotes an_iri text.now n → WroteName n (written result writer.new) }
{
    writer.copy(text)
}

// Writes the canonical spelling of a literal: the bytes up to the first quote that is no part of an escape are read and
// put one by one, and the rest is copied.
pub(crate) fn write_literal(text: &[u8], writer: &mut Writer) -> Result<(), TooLong>
    requires fresh { writer.old ≡ [] }
    ensures { (n : Name) → Denotes a_literal text.now n → WroteName n (written result writer.new) }
{
    let Some((_, mut rest)) = text.split_first() else {
        return Ok(()); // no literal is empty
    };
    writer.copy(b"\"")?;
    while let Some((byte, after)) = next_byte(rest) {
        writer.put(byte)?;
        rest = after;
    }
    writer.copy(rest)
}

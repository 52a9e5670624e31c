// Whether a text on its own is a term of the grammar.
ghost use Rattle.std.specs.Prelude.{◌≡◌, true, false};
ghost use Rattle.grammar.specs.Regular.{Is};
ghost use Rattle.grammar.specs.Productions.{part, IRIREF, literal};
ghost use Rattle.grammar.specs.Readings.{production};

use crate::cursor::Cursor;
use crate::form::{Form, Iri, Literal};

// Whether a term of the form fills the text. With `==` on the peeked byte the proof no longer closed.
fn fills<F: Form>(text: &[u8]) -> bool
    ensures yes { result ≡ true → Is (production F.kind) text.now }
    ensures no { result ≡ false → ¬ Is (production F.kind) text.now }
{
    let start = Cursor::new(text);
    match start.peek() {
        Some(b) if b == F::first() => F::end(start).is_ok_and(|end| end.pos == text.len()),
        _ => false,
    }
}

// Whether the text is an IRIREF.
pub fn is_iri(text: &[u8]) -> bool
    ensures yes { result ≡ true → Is (IRIREF part) text.now }
    ensures no { result ≡ false → ¬ Is (IRIREF part) text.now }
{
    fills::<Iri>(text)
}

// Whether the text is a literal.
pub fn is_literal(text: &[u8]) -> bool
    ensures yes { result ≡ true → Is (literal part) text.now }
    ensures no { result ≡ false → ¬ Is (literal part) text.now }
{
    fills::<Literal>(text)
}

// Whether a name is a container position.
ghost use Rattle.std.specs.Prelude.{◌≡◌};
ghost use Rattle.entailment.specs.Terms.{iri, digits_then_end, number_then_end, position};

// What the IRIs of container positions begin with.
const FRONT: &[u8] = b"<http://www.w3.org/1999/02/22-rdf-syntax-ns#_";

// Decimal digits, then the closing bracket.
fn is_digits_then_end(rest: &[u8]) -> bool
    ensures { result ≡ digits_then_end rest.now }
{
    match rest {
        [] => false,
        [byte] => *byte == b'>',
        [byte, rest @ ..] => byte.is_ascii_digit() && is_digits_then_end(rest),
    }
}

// A digit 1 to 9 first.
fn is_number_then_end(rest: &[u8]) -> bool
    ensures { result ≡ number_then_end rest.now }
{
    match rest {
        [b'1'..=b'9', rest @ ..] => is_digits_then_end(rest),
        _ => false,
    }
}

// Whether the IRI with this spelling is a container position.
pub(crate) fn is_position(spelling: &[u8]) -> bool
    ensures { result ≡ position (iri spelling.now) }
{
    match spelling.strip_prefix(FRONT) {
        Some(rest) => is_number_then_end(rest),
        None => false,
    }
}

// The classes of bytes that the productions of the line grammar name. A class is a type, so that one loop over
// the bytes of a class, written and proved once, serves them all. A closure would be as long, and carry no ranges for
// the contracts that name them.
ghost use Rattle.std.specs.Prelude.{◌≡◌, List};
ghost use Rattle.grammar.specs.Regular.{Range, inside};
ghost use Rattle.grammar.specs.Productions.{blank, letter, alnum, label_char, iri_char, string_char, escape_letter, uchar_letter, comment_char};

pub trait Class {
    // the class as the grammar writes it
    ghost ranges: { List Range };

    fn contains(b: u8) -> bool
        ensures { result ≡ inside ranges b };
}

// Space and tab.
pub struct Blanks;

impl Class for Blanks {
    ghost ranges = { blank };

    fn contains(b: u8) -> bool {
        matches!(b, b'\t' | b' ')
    }
}

// Letters, which a language tag begins with.
pub struct Letters;

impl Class for Letters {
    ghost ranges = { letter };

    fn contains(b: u8) -> bool {
        matches!(b, b'A'..=b'Z' | b'a'..=b'z')
    }
}

// Letters and digits.
pub struct Alnums;

impl Class for Alnums {
    ghost ranges = { alnum };

    fn contains(b: u8) -> bool {
        matches!(b, b'0'..=b'9' | b'A'..=b'Z' | b'a'..=b'z')
    }
}

// The bytes of a blank node's label.
pub struct LabelChars;

impl Class for LabelChars {
    ghost ranges = { label_char };

    fn contains(b: u8) -> bool {
        matches!(b, b'0'..=b'9' | b'A'..=b'Z' | b'_' | b'a'..=b'z')
    }
}

// The bytes between the brackets of an IRI.
pub struct IriChars;

impl Class for IriChars {
    ghost ranges = { iri_char };

    fn contains(b: u8) -> bool {
        matches!(b, b'!' | b'#'..=b';' | b'=' | b'?'..=b'[' | b']' | b'_' | b'a'..=b'z' | b'~'..=127)
    }
}

// The bytes between the quotes of a literal that are no part of an escape.
pub struct StringChars;

impl Class for StringChars {
    ghost ranges = { string_char };

    fn contains(b: u8) -> bool {
        matches!(b, 0..=9 | 11..=12 | 14..=b'!' | b'#'..=b'[' | b']'..=127)
    }
}

// The letters of an escape in a literal.
pub struct EscapeLetters;

impl Class for EscapeLetters {
    ghost ranges = { escape_letter };

    fn contains(b: u8) -> bool {
        matches!(
            char::from(b),
            't' | 'b' | 'n' | 'r' | 'f' | '"' | '\'' | '\\'
        )
    }
}

// The letters of the escapes `\u` and `\U`, which are not read.
pub struct UcharLetters;

impl Class for UcharLetters {
    ghost ranges = { uchar_letter };

    fn contains(b: u8) -> bool {
        matches!(b, b'U' | b'u')
    }
}

// The bytes after the `#` of a comment.
pub struct CommentChars;

impl Class for CommentChars {
    ghost ranges = { comment_char };

    fn contains(b: u8) -> bool {
        matches!(b, 0..=9 | 11..=12 | 14..=127)
    }
}

// The calls on spellings.
ghost use Rattle.std.specs.Prelude.{◌≡◌, true, false, [], MatchBool};
ghost use Rattle.ntriples.specs.Answers.{kind_of, bytes_of};
ghost use Rattle.spelling.specs.Names.{Name, Denotes, LawfulAs, Lawful};
ghost use Rattle.spelling.specs.Answers.{number, Spelling, ReadsBack, OneSpelling};
ghost use Rattle.spelling.specs.Writing.{WroteName, written};

use crate::LONGEST;
use crate::text::{write_iri, write_literal};
use crate::writer::Writer;
use ntriples::term::{is_iri, is_literal};
use ntriples::token::Token;

// The refusal of a name whose spelling has more than 255 bytes.
#[derive(Clone, Copy, Debug, PartialEq, Eq)]
pub struct TooLong;

impl TooLong {
    // The refusal number; this refusal has no kinds.
    pub fn number(self) -> u8
        ensures { result ≡ number self }
    {
        4
    }
}

// Whether the token denotes a name: labels do not, nor do bytes that the token's production does not spell. It is asked
// first, so that memory for a spelling is made only where there is one.
fn has_name(token: Token) -> bool
    ensures yes { result ≡ true → (n : Name) × Denotes (kind_of token.entry) (bytes_of token.entry) n }
    ensures no { result ≡ false → (n : Name) → ¬ Denotes (kind_of token.entry) (bytes_of token.entry) n }
{
    match token {
        Token::Iri(text) => is_iri(text),
        Token::Label(_) => false,
        Token::Literal(text) => is_literal(text),
    }
}

// Writes the canonical spelling of the token's name. The writer is lent and not handed back, since it is too large to
// be moved for each token. No label has a name.
fn spelling(token: Token, writer: &mut Writer) -> Result<(), TooLong>
    requires fresh { writer.old ≡ [] }
    ensures { (n : Name) → Denotes (kind_of token.entry) (bytes_of token.entry) n → WroteName n (written result writer.new) }
{
    match token {
        Token::Iri(text) => write_iri(text, writer),
        Token::Label(_) => Ok(()),
        Token::Literal(text) => write_literal(text, writer),
    }
}

// The canonical spelling of the token's name at the start of `out`, and its length. `None` where the token denotes
// no name. `None` and a refusal leave `out` as it was, and so do the bytes behind a spelling. No heap here: a buffer of
// the caller's, and a length.
#[tactic(auto, using(crate::proofs::Laws::all_read_back, crate::proofs::Laws::all_one_spelling))]
pub fn spell(token: Token, out: &mut [u8; LONGEST]) -> Result<Option<usize>, TooLong>
    ensures spells { Spelling (kind_of token.entry) (bytes_of token.entry) out.old out.new result }
    ensures reads_back { ReadsBack (kind_of token.entry) (bytes_of token.entry) }
    ensures one_spelling { OneSpelling (kind_of token.entry) (bytes_of token.entry) }
{
    if !has_name(token) {
        return Ok(None);
    }
    let mut writer = Writer::new();
    spelling(token, &mut writer)?;
    Ok(Some(writer.store(out)))
}

// Whether the bytes are the canonical spelling of a token of this kind; the token has the bytes.
fn is_lawful_as(token: Token, bytes: &[u8]) -> bool
    requires same { bytes_of token ≡ bytes.now }
    ensures { MatchBool result (LawfulAs (kind_of token.entry) bytes.now) (¬ LawfulAs (kind_of token.entry) bytes.now) }
{
    if !has_name(token) {
        return false;
    }
    let mut writer = Writer::new();
    match spelling(token, &mut writer) {
        Ok(()) => writer.text() == bytes,
        Err(TooLong) => false,
    }
}

// Whether the bytes are a lawful spelling: the canonical spelling of some token, of at most 255 bytes.
pub fn is_lawful(bytes: &[u8]) -> bool
    ensures { MatchBool result (Lawful bytes.now) (¬ Lawful bytes.now) }
{
    is_lawful_as(Token::Iri(bytes), bytes) || is_lawful_as(Token::Literal(bytes), bytes)
}

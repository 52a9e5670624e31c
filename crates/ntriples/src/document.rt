// The lines of a document, one after another.
ghost use Rattle.std.specs.Prelude.{◌≡◌, ℕ, ◌+◌, ◌<◌, ◌≤◌, length, IsSomeAnd, MatchOption, slice_index};
ghost use Rattle.grammar.specs.Readings.{Reading};
ghost use Rattle.grammar.specs.Documents.{EndsLine, LineAt};
ghost use Rattle.ntriples.specs.Answers.{reading};
ghost use Rattle.ntriples.specs.Cursors.{line_byte};

use crate::cursor::run_len;
use crate::fault::Fault;
use crate::line::read;
use crate::token::Line;
use grammar::class::Class;

// What a line is read as, and the offset where the next line begins.
#[derive(Clone, Copy)]
pub struct LineRead<'a> {
    pub outcome: Result<Line<'a>, Fault>,
    pub next: usize,
}

// All bytes but LF and CR, which end a line.
struct LineBytes;

impl Class for LineBytes {
    ghost ranges = { line_byte };

    fn contains(b: u8) -> bool {
        !matches!(b, b'\n' | b'\r')
    }
}

// The end of the line that begins at `from`, where LF, CR or nothing more stands.
fn line_end(text: &[u8], from: usize) -> usize
    requires within { from ≤ length text.now }
    ensures bounds { (from ≤ result) × (result ≤ length text.now) }
    ensures unbroken { (k : ℕ) → from ≤ k → k < result → ¬ EndsLine (slice_index text.now k) }
    ensures ended { result < length text.now → EndsLine (slice_index text.now result) }
{
    from + run_len::<LineBytes>(&text[from..])
}

// Where the line after the one that ends at `end` begins. With `min` it would have to require that `end` lies in the text.
fn next_start(text: &[u8], end: usize) -> usize
    ensures { (end < length text.now → result ≡ end + 1) × (length text.now ≤ end → result ≡ end) }
{
    if end < text.len() { end + 1 } else { end }
}

// The line from `from` up to `end`.
fn line_between<'a>(text: &'a [u8], from: usize, end: usize) -> LineRead<'a>
    requires here { (from < length text.now) × (from ≤ end) × (end ≤ length text.now) }
    requires unbroken { (k : ℕ) → from ≤ k → k < end → ¬ EndsLine (slice_index text.now k) }
    requires ended { end < length text.now → EndsLine (slice_index text.now end) }
    ensures reads { LineAt text.now from (reading result.outcome) result.next }
    ensures only { (o : Reading) (n : ℕ) → LineAt text.now from o n → (o ≡ reading result.outcome) × (n ≡ result.next) }
{
    let outcome = read(&text[from..end], from);
    let next = next_start(text, end);
    LineRead { outcome, next }
}

// The line of the document that begins at `from`: what it is read as, and where the next line begins; none
// where the document has ended.
pub fn read_line<'a>(text: &'a [u8], from: usize) -> Option<LineRead<'a>>
    ensures reads { MatchOption result (length text.now ≤ from) (λ x. LineAt text.now from (reading x.outcome) x.next) }
    ensures only { (o : Reading) (n : ℕ) → LineAt text.now from o n → IsSomeAnd result (λ x. (o ≡ reading x.outcome) × (n ≡ x.next)) }
{
    if from >= text.len() {
        return None;
    }
    let end = line_end(text, from);
    Some(line_between(text, from, end))
}

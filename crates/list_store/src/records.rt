// Scans of a slice of triples.
ghost use Rattle.std.specs.Prelude.{◌≡◌, ◌+◌, ◌*◌, is_some, Decides};
ghost use Rattle.triples.specs.Codes.{width, code_of};
ghost use Rattle.triples.specs.Sets.{among};
ghost use Rattle.triples.specs.Questions.{Next, Asked};
ghost use Rattle.list_store.specs.Records.{Finds};

use triples::question::{Question, fits_position};
use triples::triple::{Code, Triple};

// Subject and predicate as one number, so that a scan compares both at once: with the derived `==` it is half as fast.
fn row(triple: Triple) -> u16
    ensures { result ≡ triple.subject + width * triple.predicate }
{
    u16::from_le_bytes([triple.subject, triple.predicate])
}

fn is_same(a: Triple, b: Triple) -> bool
    ensures { Decides result (a ≡ b) }
{
    row(a) == row(b) && a.object == b.object
}

// The index of the first record that is the triple.
pub fn position(records: &[Triple], triple: Triple) -> Option<usize>
    ensures first { Finds records.now triple result }
    ensures found { is_some result ≡ among records.now triple }
{
    records.iter().position(
        |record| -> bool
            ensures { Decides result (record.now ≡ triple) }
        { is_same(*record, triple) },
    )
}

// Whether the triple answers the question. Each position is read only when those before it fit: a scan by
// `Question::answers`, which takes the triple by value, runs up to twice as many instructions.
fn answers(question: &Question, triple: &Triple) -> bool
    ensures { Decides result (Asked question.now triple.now) }
{
    fits_position(question.pattern.subject, triple.subject)
        && fits_position(question.pattern.predicate, triple.predicate)
        && fits_position(question.pattern.object, triple.object)
        && question.lowest <= triple.code()
}

// The record of least code that answers the question.
pub(crate) fn least(records: &[Triple], question: Question) -> Option<Triple>
    ensures { Next (among records.now) question result }
{
    records
        .iter()
        .filter(
            |triple| -> bool
                ensures { Decides result (Asked question triple.now.now) }
            { answers(&question, triple) },
        )
        .min_by_key(
            |triple| -> Code
                ensures { result ≡ code_of triple.now.now }
            { triple.code() },
        )
        .copied()
}

// The search for the set bit of least code that answers a question. Only rows that fit the question are looked at, from
// the row of its lowest code on.
ghost use Rattle.std.specs.Prelude.{◌≡◌, ◌<◌, ◌≤◌};
ghost use Rattle.triples.specs.Questions.{Fit, Next};
ghost use Rattle.cube_store.specs.Bits.{side, bits};
ghost use Rattle.cube_store.specs.Searches.{Spans, FirstBit, FirstIn, OfSubject, OfRow};

use crate::layout::{SIDE, word_at};
use std::ops::Range;
use triples::question::Question;
use triples::triple::{Code, TermNumber, Triple, WIDTH};

// The numbers inside the side, not below the floor, that fit the position. Three casts here and below are of numbers up to 64:
// `TryFrom` would have an error that never comes.
fn fitting(position: Option<TermNumber>, floor: Code) -> Range<TermNumber>
    ensures { Spans position floor result.start result.end }
{
    let end = SIDE as TermNumber;
    match position {
        None => floor.min(Code::from(end)) as TermNumber..end,
        Some(term) if term < end && floor <= Code::from(term) => term..term + 1,
        Some(_) => end..end,
    }
}

// The least set bit of the word in the range.
fn first_bit(word: u64, objects: Range<TermNumber>) -> Option<TermNumber>
    requires { objects.end ≤ side }
    ensures { FirstBit word objects.start objects.end result }
{
    if objects.is_empty() {
        return None;
    }
    let zeros = (word >> objects.start).trailing_zeros();
    let object = objects.start + zeros as TermNumber;
    (object < objects.end).then_some(object)
}

// A question put to the words.
#[derive(Clone, Copy)]
struct Search<'w> {
    words: &'w [u64],
    question: Question,
}

impl<'w> Search<'w> {
    // The first answer in the row that begins with `start`.
    fn in_row(&self, start: Triple) -> Option<Triple>
        requires subject { (start.subject < side) × Fit self.now.question.pattern.subject start.subject }
        requires predicate { (start.predicate < side) × Fit self.now.question.pattern.predicate start.predicate }
        requires begins { start.object ≡ 0 }
        ensures { FirstIn (OfRow start.subject start.predicate) (bits self.now.words.now) self.now.question result }
    {
        let floor = self.question.lowest.saturating_sub(start.code());
        let objects = fitting(self.question.pattern.object, floor);
        let object = first_bit(word_at(self.words, start), objects)?;
        Some(Triple { object, ..start })
    }

    // The first answer of a subject.
    fn in_subject(&self, subject: TermNumber) -> Option<Triple>
        requires { (subject < side) × Fit self.now.question.pattern.subject subject }
        ensures { FirstIn (OfSubject subject) (bits self.now.words.now) self.now.question result }
    {
        let start = Triple {
            subject,
            predicate: 0,
            object: 0,
        };
        let floor = self.question.lowest.saturating_sub(start.code()) / WIDTH;
        fitting(self.question.pattern.predicate, floor).find_map(|predicate| self.in_row(Triple {
            predicate,
            ..start
        }))
    }
}

// The triple of least code that is set and answers the question.
pub fn seek(words: &[u64], question: Question) -> Option<Triple>
    ensures { Next (bits words.now) question result }
{
    let search = Search { words, question };
    let floor = question.lowest / (WIDTH * WIDTH);
    fitting(question.pattern.subject, floor).find_map(|subject| search.in_subject(subject))
}

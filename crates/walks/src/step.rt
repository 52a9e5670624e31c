// The steps of a walk, and the questions that walks ask, which are made here and nowhere else. `first` and `after` take a store
// and a pattern, which a `Walk` keeps together: for one step the struct would be made and thrown away.
ghost use Rattle.std.specs.Prelude.{◌≡◌};
ghost use Rattle.triples.specs.Questions.{Next};
ghost use Rattle.walks.specs.Steps.{from_start as the_start, past as the_rest};

use triples::question::{Pattern, Question};
use triples::store::TripleStore;
use triples::triple::Triple;

// The question for the triples that fit.
pub(crate) fn from_start(pattern: Pattern) -> Question
    ensures { result ≡ the_start pattern }
{
    Question { lowest: 0, pattern }
}

// The question for the triples that fit whose codes are above that of `triple`.
pub(crate) fn past(triple: Triple, pattern: Pattern) -> Question
    ensures { result ≡ the_rest triple pattern }
{
    Question {
        lowest: triple.code() + 1,
        pattern,
    }
}

// The triple of least code that fits.
pub fn first<S: TripleStore>(store: &S, pattern: Pattern) -> Option<Triple>
    ensures { Next (S.TripleStore.held store.now) (the_start pattern) result }
{
    store.next(from_start(pattern))
}

// The triple of least code above that of `triple` that fits.
pub fn after<S: TripleStore>(store: &S, pattern: Pattern, triple: Triple) -> Option<Triple>
    ensures { Next (S.TripleStore.held store.now) (the_rest triple pattern) result }
{
    store.next(past(triple, pattern))
}

// Counting the triples that fit.
ghost use Rattle.std.specs.Prelude.{◌≡◌};
ghost use Rattle.walks.specs.Selections.{Counts};

use crate::walk::Walk;
use triples::question::Pattern;
use triples::store::TripleStore;

// How many triples of the store fit the pattern.
pub fn count_fitting<S: TripleStore>(store: &S, pattern: Pattern) -> usize
    ensures { Counts (S.TripleStore.held store.now) pattern result }
{
    walk_length(Walk::new(store, pattern))
}

// How many triples a walk from the start gives.
fn walk_length<S: TripleStore>(walk: Walk<'_, S>) -> usize
    requires { walk.question.lowest ≡ 0 }
    ensures { Counts (S.TripleStore.held walk.entry.store.now) walk.entry.question.pattern result }
{
    walk.count()
}

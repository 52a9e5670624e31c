// Copying one store into another.
ghost use Rattle.std.specs.Prelude.{◌≡◌};
ghost use Rattle.walks.specs.Copies.{Copies};

use crate::walk::Walk;
use triples::question::Pattern;
use triples::store::{Refusal, TripleStore};
use triples::triple::Triple;

// The triple at which a copy stopped, and why it was refused.
#[derive(Clone, Copy, PartialEq, Eq, Debug)]
pub struct Stopped {
    pub triple: Triple,
    pub refusal: Refusal,
}

// Adds every triple of `from` to `to`, in the order of their codes, up to the first that is refused.
pub fn copy_all<S: TripleStore, R: TripleStore>(from: &S, to: &mut R) -> Result<(), Stopped>
    ensures side { R.TripleStore.side_of to.new ≡ R.TripleStore.side_of to.old }
    ensures capacity { R.TripleStore.capacity_of to.new ≡ R.TripleStore.capacity_of to.old }
    ensures copies { Copies (R.TripleStore.side_of to.old) (R.TripleStore.capacity_of to.old) (S.TripleStore.held from.now) (R.TripleStore.held to.old) (R.TripleStore.held to.new) result }
{
    for triple in Walk::new(from, Pattern::FREE) {
        to.add(triple)
            .map_err(|refusal| Stopped { triple, refusal })?;
    }
    Ok(())
}

// Refusals of a closing.
ghost use Rattle.std.specs.Prelude.{◌≡◌};
ghost use Rattle.triples.specs.Sets.{empty};
ghost use Rattle.closing.specs.Closes.{number};

use triples::store::TripleStore;

// Why a closing is refused: there are more terms than the side, or a kept triple is not of the terms; or the closure has more
// triples than the capacity.
#[derive(Clone, Copy, PartialEq, Eq, Debug)]
pub enum Refusal {
    Outside,
    Full,
}

impl Refusal {
    // The refusal number.
    pub fn number(self) -> u8
        ensures { result ≡ number self }
    {
        match self {
            Refusal::Outside => 6,
            Refusal::Full => 22,
        }
    }
}

// Refuses, with the store empty.
pub fn refuse<S: TripleStore>(store: &mut S, refusal: Refusal) -> Result<usize, Refusal>
    ensures side { S.TripleStore.side_of store.new ≡ S.TripleStore.side_of store.old }
    ensures capacity { S.TripleStore.capacity_of store.new ≡ S.TripleStore.capacity_of store.old }
    ensures cleared { S.TripleStore.held store.new ≡ empty }
    ensures refuses { result ≡ Err refusal }
{
    store.clear();
    Err(refusal)
}

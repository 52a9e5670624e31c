// What a store of triples means.
ghost use Rattle.std.specs.Prelude.{◌≡◌, ℕ};
ghost use Rattle.triples.specs.Sets.{Graph, empty, size};
ghost use Rattle.triples.specs.Questions.{Next};
ghost use Rattle.triples.specs.Stores.{Lawful, Adds, number};

use crate::question::Question;
use crate::triple::Triple;

// Whether an added triple was in the store before.
#[derive(Clone, Copy, PartialEq, Eq, Debug)]
pub enum Added {
    New,
    Had,
}

// Why a triple is not added: a number of it is not below the side, or the store is full.
#[derive(Clone, Copy, PartialEq, Eq, Debug)]
pub enum Refusal {
    Outside = 6,
    Full = 7,
}

impl Refusal {
    // The refusal number.
    pub fn number(self) -> u8
        ensures { result ≡ number self }
    {
        self as u8
    }
}

// A store means a set of triples. Its side bounds the numbers in them and its capacity how many there are; neither ever
// changes, which each of the two has a clause for: one definition over both would be no shorter to cite.
pub trait TripleStore {
    ghost side_of: { Self → ℕ };

    ghost capacity_of: { Self → ℕ };

    // the triples in the store
    ghost held: { Self → Graph };

    // what is so of every store
    ghost lawful: { (s : Self) → Lawful (side_of s) (capacity_of s) (held s) };

    fn side(&self) -> usize
        ensures { result ≡ side_of self.now };

    fn capacity(&self) -> usize
        ensures { result ≡ capacity_of self.now };

    // How many triples are in the store.
    fn count(&self) -> usize
        ensures { result ≡ size (held self.now) };

    fn has(&self, triple: Triple) -> bool
        ensures { result ≡ held self.now triple };

    // The triple of least code that answers the question.
    fn next(&self, question: Question) -> Option<Triple>
        ensures { Next (held self.now) question result };

    fn add(&mut self, triple: Triple) -> Result<Added, Refusal>
        ensures side { side_of self.new ≡ side_of self.old }
        ensures capacity { capacity_of self.new ≡ capacity_of self.old }
        ensures adds { Adds (side_of self.old) (capacity_of self.old) (held self.old) triple (held self.new) result };

    // Takes every triple out.
    fn clear(&mut self)
        ensures side { side_of self.new ≡ side_of self.old }
        ensures capacity { capacity_of self.new ≡ capacity_of self.old }
        ensures cleared { held self.new ≡ empty };
}

// A store that is lent is a store too.
impl<'b, S: TripleStore> TripleStore for &'b mut S {
    ghost side_of = { λ s. S.TripleStore.side_of s.now };

    ghost capacity_of = { λ s. S.TripleStore.capacity_of s.now };

    ghost held = { λ s. S.TripleStore.held s.now };

    ghost lawful = { λ s. S.TripleStore.lawful s.now };

    fn side(&self) -> usize {
        (**self).side()
    }

    fn capacity(&self) -> usize {
        (**self).capacity()
    }

    fn count(&self) -> usize {
        (**self).count()
    }

    fn has(&self, triple: Triple) -> bool {
        (**self).has(triple)
    }

    fn next(&self, question: Question) -> Option<Triple> {
        (**self).next(question)
    }

    fn add(&mut self, triple: Triple) -> Result<Added, Refusal> {
        (**self).add(triple)
    }

    fn clear(&mut self) {
        (**self).clear();
    }
}

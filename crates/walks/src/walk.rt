// Walks through a store. Code that goes through the triples of a store does it by a walk, or by the steps of one.
ghost use Rattle.std.specs.Prelude.{◌≡◌, ◌-◌};
ghost use Rattle.std.specs.Iterator.{at_most};
ghost use Rattle.triples.specs.Codes.{codes};
ghost use Rattle.walks.specs.Steps.{from_start as the_start, WalksOn};

use crate::step::{from_start, past};
use triples::question::{Pattern, Question};
use triples::store::TripleStore;
use triples::triple::Triple;

// The triples of a store that answer a question, in the order of their codes.
#[derive_where(Clone, Copy)]
pub struct Walk<'a, S> {
    store: &'a S,
    question: Question,
}

impl<'a, S: TripleStore> Walk<'a, S> {
    // The triples that fit the pattern.
    pub fn new(store: &'a S, pattern: Pattern) -> Walk<'a, S>
        ensures over { result.store.now ≡ store.now }
        ensures whole { result.question ≡ the_start pattern }
    {
        Walk {
            store,
            question: from_start(pattern),
        }
    }
}

impl<'a, S: TripleStore> Iterator for Walk<'a, S> {
    type Item = Triple;

    ghost next_gives = { λ s r t. (t.store ≡ s.store) × WalksOn (S.TripleStore.held s.store.now) s.question r t.question };

    ghost remaining = { λ s. at_most (codes - s.question.lowest) };

    fn next(&mut self) -> Option<Triple> {
        let triple = self.store.next(self.question)?;
        self.question = past(triple, self.question.pattern);
        Some(triple)
    }
}

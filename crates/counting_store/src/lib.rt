// A store over any store that counts its calls, to measure the work of code over stores. What it means is what the store
// below means.
#![tactic(auto)]

ghost use Rattle.std.specs.Prelude.{◌≡◌};
ghost use Rattle.triples.specs.Sets.{empty};
ghost use Rattle.triples.specs.Stores.{Adds};
ghost use Rattle.counting_store.specs.Counters.{counted};

use std::cell::Cell;
use triples::question::Question;
use triples::store::{Added, Refusal, TripleStore};
use triples::triple::Triple;

// How often a store was called. The questions are the calls of side, capacity, count, has and next. A counter stays at
// its largest number.
#[derive(Clone, Copy, PartialEq, Eq, Debug)]
pub struct Calls {
    pub questions: u64,
    pub adds: u64,
    pub clears: u64,
}

// The counters are not one `Calls`: questions are counted behind a `&`, in a cell, of which a clause can say nothing.
#[derive(Drop)]
pub struct CountingStore<S> {
    store: S,
    questions: Cell<u64>,
    adds: u64,
    clears: u64,
}

impl<S: TripleStore> CountingStore<S> {
    // Over the store, with all counters at 0.
    pub fn new(store: S) -> CountingStore<S>
        ensures over { result.store ≡ store }
        ensures adds { result.adds ≡ 0 }
        ensures clears { result.clears ≡ 0 }
    {
        CountingStore {
            store,
            questions: Cell::new(0),
            adds: 0,
            clears: 0,
        }
    }

    // How many calls there were so far. No contract can say what a cell holds, so the questions are told untied.
    pub fn calls(&self) -> Calls
        ensures adds { result.adds ≡ self.now.adds }
        ensures clears { result.clears ≡ self.now.clears }
    {
        Calls {
            questions: self.questions.get(),
            adds: self.adds,
            clears: self.clears,
        }
    }

    fn asked(&self) {
        self.questions.set(self.questions.get().saturating_add(1));
    }
}

// Each call is passed on by hand, as by a lent store: there is no shorter form of that.
impl<S: TripleStore> TripleStore for CountingStore<S> {
    ghost side_of = { λ s. S.TripleStore.side_of s.store };

    ghost capacity_of = { λ s. S.TripleStore.capacity_of s.store };

    ghost held = { λ s. S.TripleStore.held s.store };

    ghost lawful = { λ s. S.TripleStore.lawful s.store };

    fn side(&self) -> usize {
        self.asked();
        self.store.side()
    }

    fn capacity(&self) -> usize {
        self.asked();
        self.store.capacity()
    }

    fn count(&self) -> usize {
        self.asked();
        self.store.count()
    }

    fn has(&self, triple: Triple) -> bool {
        self.asked();
        self.store.has(triple)
    }

    fn next(&self, question: Question) -> Option<Triple> {
        self.asked();
        self.store.next(question)
    }

    // A method with a clause of its own has to repeat those of the trait.
    fn add(&mut self, triple: Triple) -> Result<Added, Refusal>
        ensures side { S.TripleStore.side_of self.new.store ≡ S.TripleStore.side_of self.old.store }
        ensures capacity { S.TripleStore.capacity_of self.new.store ≡ S.TripleStore.capacity_of self.old.store }
        ensures adds { Adds (S.TripleStore.side_of self.old.store) (S.TripleStore.capacity_of self.old.store) (S.TripleStore.held self.old.store) triple (S.TripleStore.held self.new.store) result }
        ensures counts { self.new.adds ≡ counted self.old.adds }
        ensures clears { self.new.clears ≡ self.old.clears }
    {
        self.adds = self.adds.saturating_add(1);
        self.store.add(triple)
    }

    fn clear(&mut self)
        ensures side { S.TripleStore.side_of self.new.store ≡ S.TripleStore.side_of self.old.store }
        ensures capacity { S.TripleStore.capacity_of self.new.store ≡ S.TripleStore.capacity_of self.old.store }
        ensures cleared { S.TripleStore.held self.new.store ≡ empty }
        ensures counts { self.new.clears ≡ counted self.old.clears }
        ensures adds { self.new.adds ≡ self.old.adds }
    {
        self.clears = self.clears.saturating_add(1);
        self.store.clear();
    }
}

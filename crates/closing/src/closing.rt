// Filling a store with the closure.
ghost use Rattle.std.specs.Prelude.{◌≡◌, ◌+◌, ◌≤◌, length, Decides, true, false};
ghost use Rattle.std.specs.List.{AllByRecursion};
ghost use Rattle.triples.specs.Codes.{Inside};
ghost use Rattle.triples.specs.Sets.{empty};
ghost use Rattle.closing.specs.Passes.{Outcome};
ghost use Rattle.closing.specs.Seeds.{HoldsClosed};
ghost use Rattle.closing.specs.Closes.{Closes, WithinSide, ForTermsOf, KindsHaveTerms};

use crate::kinds::TermKind;
use crate::passes::{NoRoom, saturate};
use crate::refusal::{Refusal, refuse};
use crate::starts::seed;
use crate::vocabulary::THIRTY;
use entailment::regime::Regime;
use triples::store::TripleStore;
use triples::triple::Triple;

// Whether the numbers of a triple are below a bound.
fn is_inside(triple: Triple, bound: usize) -> bool
    ensures { Decides result (Inside bound triple) }
{
    usize::from(triple.subject) < bound
        && usize::from(triple.predicate) < bound
        && usize::from(triple.object) < bound
}

fn are_inside(kept: &[Triple], bound: usize) -> bool
    ensures { Decides result (AllByRecursion (Inside bound) kept.now) }
{
    for triple in kept {
        if !is_inside(*triple, bound) {
            return false;
        }
    }
    true
}

// Puts in the seed, and what follows from it.
fn fill<S: TripleStore>(
    store: &mut S,
    regime: Regime,
    more: &[TermKind],
    kept: &[Triple],
) -> Result<(), NoRoom>
    requires few { 30 + length more.now ≤ S.TripleStore.side_of store.old }
    requires inside { AllByRecursion (Inside (30 + length more.now)) kept.now }
    requires cleared { S.TripleStore.held store.old ≡ empty }
    ensures side { S.TripleStore.side_of store.new ≡ S.TripleStore.side_of store.old }
    ensures capacity { S.TripleStore.capacity_of store.new ≡ S.TripleStore.capacity_of store.old }
    ensures fills { Outcome (HoldsClosed regime more.now kept.now) (HoldsClosed regime more.now kept.now (S.TripleStore.held store.new)) (S.TripleStore.capacity_of store.new) (S.TripleStore.held store.old) (S.TripleStore.held store.new) result }
{
    seed(store, regime, more, kept)?;
    saturate(store, regime, THIRTY + more.len())
}

// Whether there are no more terms than the side, and the kept triples are of the terms.
fn is_within(side: usize, more: &[TermKind], kept: &[Triple]) -> bool
    requires { 30 ≤ side }
    ensures yes { result ≡ true → (30 + length more.now ≤ side) × AllByRecursion (Inside (30 + length more.now)) kept.now }
    ensures no { result ≡ false → ForTermsOf more.now (λ terms. ¬ WithinSide side terms kept.now) }
{
    if more.len() > side - THIRTY {
        return false;
    }
    are_inside(kept, THIRTY + more.len())
}

// The same as `close`, where there are no more terms than the side and the kept triples are of the terms.
fn close_within<S: TripleStore>(
    store: &mut S,
    regime: Regime,
    more: &[TermKind],
    kept: &[Triple],
) -> Result<usize, Refusal>
    requires few { 30 + length more.now ≤ S.TripleStore.side_of store.old }
    requires inside { AllByRecursion (Inside (30 + length more.now)) kept.now }
    ensures side { S.TripleStore.side_of store.new ≡ S.TripleStore.side_of store.old }
    ensures capacity { S.TripleStore.capacity_of store.new ≡ S.TripleStore.capacity_of store.old }
    ensures closes { ForTermsOf more.now (λ terms. Closes regime terms kept.now (S.TripleStore.side_of store.old) (S.TripleStore.capacity_of store.old) (S.TripleStore.held store.new) result) }
{
    store.clear();
    if let Err(NoRoom) = fill(store, regime, more, kept) {
        return refuse(store, Refusal::Full);
    }
    Ok(store.count())
}

// Clears the store and fills it with the closure of the kept triples, in the regime, over the thirty terms and those after them,
// of which the kinds are given. Answers the closure's size. A refusal leaves the store empty.
pub fn close<S: TripleStore>(
    store: &mut S,
    regime: Regime,
    more: &[TermKind],
    kept: &[Triple],
) -> Result<usize, Refusal>
    ensures side { S.TripleStore.side_of store.new ≡ S.TripleStore.side_of store.old }
    ensures capacity { S.TripleStore.capacity_of store.new ≡ S.TripleStore.capacity_of store.old }
    ensures closes { ForTermsOf more.now (λ terms. Closes regime terms kept.now (S.TripleStore.side_of store.old) (S.TripleStore.capacity_of store.old) (S.TripleStore.held store.new) result) }
{
    if !is_within(store.side(), more, kept) {
        return refuse(store, Refusal::Outside);
    }
    close_within(store, regime, more, kept)
}

// The contract of `close` speaks of the terms of every book whose terms are of the kinds given. There is such a book, whatever the
// kinds.
pub fn kinds_have_terms()
    ensures { KindsHaveTerms }
{}

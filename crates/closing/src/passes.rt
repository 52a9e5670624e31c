// Passes: each puts into the store what follows from what it holds. A pass only adds. The conclusion of premises that are in
// the store when it begins is there when it ends, or there is no room.
ghost use Rattle.std.specs.Prelude.{◌≡◌, ◌≤◌, true, Some};
ghost use Rattle.triples.specs.Codes.{Inside};
ghost use Rattle.triples.specs.Questions.{Fits};
ghost use Rattle.closing.specs.Steps.{first_of, second_of, conclusion_of, part_of, Partner};
ghost use Rattle.closing.specs.Passes.{Outcome, Swept, Holds, RowFrom, PartnersFrom, TermFrom, OfFirst, RowsFrom, RowClosed, RowsClosed};

use crate::rows::{
    Part, by_part, conclude, first_pattern, is_idle, last_alike, part_of, rows_of, second_pattern,
};
use entailment::regime::{Regime, Row};
use triples::question::Pattern;
use triples::store::TripleStore;
use triples::triple::{TermNumber, Triple};
use walks::step::{after, first};

// There is no room for a triple that belongs in the store.
#[derive(Clone, Copy, Debug)]
pub struct NoRoom;

// Puts a triple in.
pub fn put<S: TripleStore>(store: &mut S, triple: Triple) -> Result<(), NoRoom>
    requires { Inside (S.TripleStore.side_of store.old) triple }
    ensures side { S.TripleStore.side_of store.new ≡ S.TripleStore.side_of store.old }
    ensures capacity { S.TripleStore.capacity_of store.new ≡ S.TripleStore.capacity_of store.old }
    ensures puts { Outcome (Holds triple) (Holds triple (S.TripleStore.held store.new)) (S.TripleStore.capacity_of store.new) (S.TripleStore.held store.old) (S.TripleStore.held store.new) result }
{
    match store.add(triple) {
        Ok(_) => Ok(()),
        Err(_) => Err(NoRoom),
    }
}

// Puts in what follows by the row from its premises, in the row's order. Every conclusion enters here.
fn enter<S: TripleStore>(
    store: &mut S,
    row: Row,
    premise: Triple,
    second: Triple,
) -> Result<(), NoRoom>
    requires premise_held { S.TripleStore.held store.old premise ≡ true }
    requires second_held { S.TripleStore.held store.old second ≡ true }
    requires fits { Fits (first_of row) premise }
    requires partner { Partner row premise second }
    ensures side { S.TripleStore.side_of store.new ≡ S.TripleStore.side_of store.old }
    ensures capacity { S.TripleStore.capacity_of store.new ≡ S.TripleStore.capacity_of store.old }
    ensures enters { Outcome (RowClosed row) (Holds (conclusion_of row premise second) (S.TripleStore.held store.new)) (S.TripleStore.capacity_of store.new) (S.TripleStore.held store.old) (S.TripleStore.held store.new) result }
{
    put(store, conclude(row, premise, second))
}

// Puts in what follows by the row from a first premise and each second one, which the pattern asks for.
fn enter_with_each<S: TripleStore>(
    store: &mut S,
    row: Row,
    premise: Triple,
    pattern: Pattern,
) -> Result<(), NoRoom>
    requires held { S.TripleStore.held store.old premise ≡ true }
    requires fits { Fits (first_of row) premise }
    requires asks { second_of row premise ≡ Some pattern }
    ensures side { S.TripleStore.side_of store.new ≡ S.TripleStore.side_of store.old }
    ensures capacity { S.TripleStore.capacity_of store.new ≡ S.TripleStore.capacity_of store.old }
    ensures enters { Outcome (RowClosed row) (PartnersFrom row premise (S.TripleStore.held store.old) (S.TripleStore.held store.new)) (S.TripleStore.capacity_of store.new) (S.TripleStore.held store.old) (S.TripleStore.held store.new) result }
{
    let mut candidate = first(store, pattern);
    while let Some(second) = candidate {
        enter(store, row, premise, second)?;
        candidate = after(store, pattern, last_alike(row, second));
    }
    Ok(())
}

// Puts in what follows by the row from a first premise.
fn apply_to<S: TripleStore>(store: &mut S, row: Row, premise: Triple) -> Result<(), NoRoom>
    requires held { S.TripleStore.held store.old premise ≡ true }
    requires fits { Fits (first_of row) premise }
    ensures side { S.TripleStore.side_of store.new ≡ S.TripleStore.side_of store.old }
    ensures capacity { S.TripleStore.capacity_of store.new ≡ S.TripleStore.capacity_of store.old }
    ensures enters { Outcome (RowClosed row) (PartnersFrom row premise (S.TripleStore.held store.old) (S.TripleStore.held store.new)) (S.TripleStore.capacity_of store.new) (S.TripleStore.held store.old) (S.TripleStore.held store.new) result }
{
    if is_idle(row, premise) {
        return Ok(());
    }
    match second_pattern(row, premise) {
        None => enter(store, row, premise, premise),
        Some(pattern) => enter_with_each(store, row, premise, pattern),
    }
}

// Puts in what follows by the row, one first premise after another.
fn apply_by_triples<S: TripleStore>(store: &mut S, row: Row) -> Result<(), NoRoom>
    ensures side { S.TripleStore.side_of store.new ≡ S.TripleStore.side_of store.old }
    ensures capacity { S.TripleStore.capacity_of store.new ≡ S.TripleStore.capacity_of store.old }
    ensures applies { Outcome (RowClosed row) (RowFrom row (S.TripleStore.held store.old) (S.TripleStore.held store.new)) (S.TripleStore.capacity_of store.new) (S.TripleStore.held store.old) (S.TripleStore.held store.new) result }
{
    let pattern = first_pattern(row);
    let mut candidate = first(store, pattern);
    while let Some(premise) = candidate {
        apply_to(store, row, premise)?;
        candidate = after(store, pattern, premise);
    }
    Ok(())
}

// Puts in what follows by the row from the triples with a term at the part that its conclusion speaks of.
fn enter_for_term<S: TripleStore>(
    store: &mut S,
    row: Row,
    part: Part,
    term: TermNumber,
) -> Result<(), NoRoom>
    requires { part_of row ≡ Some part }
    ensures side { S.TripleStore.side_of store.new ≡ S.TripleStore.side_of store.old }
    ensures capacity { S.TripleStore.capacity_of store.new ≡ S.TripleStore.capacity_of store.old }
    ensures enters { Outcome (RowClosed row) (TermFrom row part term (S.TripleStore.held store.old) (S.TripleStore.held store.new)) (S.TripleStore.capacity_of store.new) (S.TripleStore.held store.old) (S.TripleStore.held store.new) result }
{
    match first(store, by_part(part, term)) {
        None => Ok(()),
        Some(premise) => enter(store, row, premise, premise),
    }
}

// Puts in what follows by the row, one term after another.
fn apply_by_terms<S: TripleStore>(
    store: &mut S,
    row: Row,
    part: Part,
    terms: usize,
) -> Result<(), NoRoom>
    requires part { part_of row ≡ Some part }
    requires few { terms ≤ 256 }
    requires inside { OfFirst terms (S.TripleStore.held store.old) }
    ensures side { S.TripleStore.side_of store.new ≡ S.TripleStore.side_of store.old }
    ensures capacity { S.TripleStore.capacity_of store.new ≡ S.TripleStore.capacity_of store.old }
    ensures applies { Outcome (RowClosed row) (RowFrom row (S.TripleStore.held store.old) (S.TripleStore.held store.new)) (S.TripleStore.capacity_of store.new) (S.TripleStore.held store.old) (S.TripleStore.held store.new) result }
{
    for term in 0..terms {
        enter_for_term(store, row, part, term as TermNumber)?;
    }
    Ok(())
}

// Puts in what follows by the row, by terms where they are fewer than the triples.
fn apply<S: TripleStore>(store: &mut S, row: Row, terms: usize) -> Result<(), NoRoom>
    requires few { terms ≤ 256 }
    requires inside { OfFirst terms (S.TripleStore.held store.old) }
    ensures side { S.TripleStore.side_of store.new ≡ S.TripleStore.side_of store.old }
    ensures capacity { S.TripleStore.capacity_of store.new ≡ S.TripleStore.capacity_of store.old }
    ensures applies { Outcome (RowClosed row) (RowFrom row (S.TripleStore.held store.old) (S.TripleStore.held store.new)) (S.TripleStore.capacity_of store.new) (S.TripleStore.held store.old) (S.TripleStore.held store.new) result }
{
    match part_of(row) {
        Some(part) if terms < store.count() => apply_by_terms(store, row, part, terms),
        _ => apply_by_triples(store, row),
    }
}

// Puts in what follows by each row of the regime in turn.
fn sweep<S: TripleStore>(store: &mut S, regime: Regime, terms: usize) -> Result<(), NoRoom>
    requires enough { 30 ≤ terms }
    requires few { terms ≤ 256 }
    requires inside { OfFirst terms (S.TripleStore.held store.old) }
    ensures side { S.TripleStore.side_of store.new ≡ S.TripleStore.side_of store.old }
    ensures capacity { S.TripleStore.capacity_of store.new ≡ S.TripleStore.capacity_of store.old }
    ensures sweeps { Outcome (RowsClosed regime) (RowsFrom regime (S.TripleStore.held store.old) (S.TripleStore.held store.new)) (S.TripleStore.capacity_of store.new) (S.TripleStore.held store.old) (S.TripleStore.held store.new) result }
{
    for row in rows_of(regime) {
        apply(store, *row, terms)?;
    }
    Ok(())
}

// The same, and tells whether anything was added.
fn sweep_adds<S: TripleStore>(store: &mut S, regime: Regime, terms: usize) -> Result<bool, NoRoom>
    requires enough { 30 ≤ terms }
    requires few { terms ≤ 256 }
    requires inside { OfFirst terms (S.TripleStore.held store.old) }
    ensures side { S.TripleStore.side_of store.new ≡ S.TripleStore.side_of store.old }
    ensures capacity { S.TripleStore.capacity_of store.new ≡ S.TripleStore.capacity_of store.old }
    ensures sweeps { Swept regime (S.TripleStore.capacity_of store.new) (S.TripleStore.held store.old) (S.TripleStore.held store.new) result }
{
    let before = store.count();
    sweep(store, regime, terms)?;
    Ok(before < store.count())
}

// Sweeps until a sweep adds nothing.
pub fn saturate<S: TripleStore>(store: &mut S, regime: Regime, terms: usize) -> Result<(), NoRoom>
    requires enough { 30 ≤ terms }
    requires few { terms ≤ 256 }
    requires inside { OfFirst terms (S.TripleStore.held store.old) }
    ensures side { S.TripleStore.side_of store.new ≡ S.TripleStore.side_of store.old }
    ensures capacity { S.TripleStore.capacity_of store.new ≡ S.TripleStore.capacity_of store.old }
    ensures saturates { Outcome (RowsClosed regime) (RowsClosed regime (S.TripleStore.held store.new)) (S.TripleStore.capacity_of store.new) (S.TripleStore.held store.old) (S.TripleStore.held store.new) result }
{
    while sweep_adds(store, regime, terms)? {}
    Ok(())
}

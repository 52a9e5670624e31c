// What the rows of a goal can still become, and which row is next.
ghost use Rattle.std.specs.Prelude.{◌≡◌, ◌≤◌, ◌↔◌, length, Decides};
ghost use Rattle.std.specs.Bool.{OnTrue, OnFalse};
ghost use Rattle.embedding.specs.Bound.{SmallRow, asked, pattern as pattern_of, lowest};
ghost use Rattle.embedding.specs.Searching.{Hopeful, IsClosed, Promises, Tries, free_positions as free_count, Picks, Loose, Apart, Parted};

use crate::bindings::Bindings;
use crate::rows::{pattern, unify};
use entailment::goal::{GoalRow, Position};
use triples::question::Pattern;
use triples::store::TripleStore;
use triples::triple::Triple;
use walks::step::first;

// Whether every row fits some triple of the store, as far as its goal blanks are bound.
pub(crate) fn is_hopeful<S: TripleStore>(store: &S, goal: &[GoalRow], bindings: &Bindings) -> bool
    ensures { Promises (S.TripleStore.held store.now) goal.now bindings.now result }
{
    for row in goal {
        if first(store, pattern(*row, bindings)).is_none() {
            return false;
        }
    }
    true
}

// Whether a goal blank of the position was bound after the lowest `mark`.
fn is_touched(position: Position, bindings: &Bindings, mark: usize) -> bool
    requires { mark ≤ length bindings.now }
    ensures { OnFalse result (asked bindings.now position ≡ asked (lowest mark bindings.now) position) }
{
    match position {
        Position::Name(_) => false,
        Position::Blank(blank) => bindings.is_bound_since(mark, blank),
    }
}

// Whether a goal blank of the row was.
fn is_row_touched(row: GoalRow, bindings: &Bindings, mark: usize) -> bool
    requires { mark ≤ length bindings.now }
    ensures { OnFalse result (pattern_of bindings.now row ≡ pattern_of (lowest mark bindings.now) row) }
{
    is_touched(row.subject, bindings, mark)
        || is_touched(row.predicate, bindings, mark)
        || is_touched(row.object, bindings, mark)
}

// Whether there is still hope where there was under the lowest `mark`. Rows that no later binding touches are not asked again.
fn is_still_hopeful<S: TripleStore>(
    store: &S,
    goal: &[GoalRow],
    bindings: &Bindings,
    mark: usize,
) -> bool
    requires mark { mark ≤ length bindings.now }
    requires hopeful { Hopeful (S.TripleStore.held store.now) goal.now (lowest mark bindings.now) }
    ensures { Promises (S.TripleStore.held store.now) goal.now bindings.now result }
{
    for row in goal {
        if is_row_touched(*row, bindings, mark) && first(store, pattern(*row, bindings)).is_none() {
            return false;
        }
    }
    true
}

// Whether the row can be the triple and leave hope for every row; if so, its goal blanks are bound.
pub(crate) fn try_triple<S: TripleStore>(
    store: &S,
    goal: &[GoalRow],
    row: GoalRow,
    triple: Triple,
    bindings: &mut Bindings,
) -> bool
    requires small { SmallRow row }
    requires hopeful { Hopeful (S.TripleStore.held store.now) goal.now bindings.old }
    ensures { Tries (S.TripleStore.held store.now) goal.now row triple bindings.old bindings.new result }
{
    let mark = bindings.len();
    if !unify(row, triple, bindings) {
        return false;
    }
    if is_still_hopeful(store, goal, bindings, mark) {
        return true;
    }
    bindings.truncate(mark);
    false
}

// How many positions are free.
fn free_positions(pattern: Pattern) -> u8
    ensures { result ≡ free_count pattern }
{
    u8::from(pattern.subject.is_none())
        + u8::from(pattern.predicate.is_none())
        + u8::from(pattern.object.is_none())
}

// How many goal blanks of the row are not bound.
fn unbound_blanks(row: GoalRow, bindings: &Bindings) -> u8
    ensures few { result ≤ 3 }
    ensures closed { (result ≡ 0) ↔ IsClosed bindings.now row }
{
    let free = free_positions(pattern(row, bindings));
    if free == 2 && row.subject == row.object {
        1
    } else {
        free
    }
}

// A row with the fewest goal blanks that are not bound, among those that have some.
pub(crate) fn open_row(goal: &[GoalRow], bindings: &Bindings) -> Option<usize>
    ensures { Picks goal.now bindings.now result }
{
    let mut best = None;
    let mut fewest = 4;
    for (i, row) in goal.iter().enumerate() {
        let free = unbound_blanks(*row, bindings);
        if free > 0 && free < fewest {
            best = Some(i);
            fewest = free;
        }
    }
    best
}

// Whether the position has no goal blank that is bound.
fn is_loose(position: Position, bindings: &Bindings) -> bool
    ensures { Decides result (Loose bindings.now position) }
{
    match position {
        Position::Name(_) => true,
        Position::Blank(blank) => bindings.get(blank).is_none(),
    }
}

// Whether no goal blank of the row is bound.
fn is_apart(row: GoalRow, bindings: &Bindings) -> bool
    ensures { Decides result (Apart bindings.now row) }
{
    is_loose(row.subject, bindings)
        && is_loose(row.predicate, bindings)
        && is_loose(row.object, bindings)
}

// Whether no row has both a goal blank that is bound and one that is not.
pub(crate) fn is_parted(goal: &[GoalRow], bindings: &Bindings) -> bool
    ensures { OnTrue result (Parted goal.now bindings.now) }
{
    for row in goal {
        if unbound_blanks(*row, bindings) > 0 && !is_apart(*row, bindings) {
            return false;
        }
    }
    true
}

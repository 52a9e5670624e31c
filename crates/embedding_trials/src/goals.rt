// Goals asked of a small closed set in each kind of store, with the map that a yes writes.
use counting_store::CountingStore;
use cube_store::cube::CubeStore;
use embedding::deciding::{Refusal, embeds};
use embedding::kind::Kind;
use embedding::search::{Choice, Verdict};
use entailment::goal::{GoalRow, Position};
use list_store::store::ListStore;
use std::process::Abort;
use triples::store::{Added, TripleStore};
use triples::triple::Triple;

// Terms of the halls after the thirty: a class below Pass, Pass, Item, what opens, a card, a hall, a note and a blank.
const TYPE: u8 = 0;

const SUB_CLASS: u8 = 23;

const FAMILY: u8 = 30;

const PASS: u8 = 31;

const ITEM: u8 = 32;

const OPENS: u8 = 33;

const CARD: u8 = 34;

const ROPES: u8 = 35;

const NOTE: u8 = 36;

const SOMETHING: u8 = 37;

// The kinds of the terms above and of those below them.
fn kinds() -> [Kind; 38] {
    let mut kinds = [Kind::Iri; 38];
    kinds[36] = Kind::Literal;
    kinds[37] = Kind::Blank;
    kinds
}

const UNUSED: Triple = Triple {
    subject: 0,
    predicate: 0,
    object: 0,
};

// What a marker of the map's memory is, which a no leaves.
const MARK: u8 = 99;

fn triple(subject: u8, predicate: u8, object: u8) -> Triple {
    Triple {
        subject,
        predicate,
        object,
    }
}

// A few triples, closed under the patterns on classes.
fn fill<S: TripleStore>(rt: &impl Abort, store: &mut S) {
    store.clear();
    let closed = [
        triple(FAMILY, SUB_CLASS, PASS),
        triple(PASS, SUB_CLASS, ITEM),
        triple(FAMILY, SUB_CLASS, ITEM),
        triple(PASS, SUB_CLASS, PASS),
        triple(CARD, TYPE, FAMILY),
        triple(CARD, TYPE, PASS),
        triple(CARD, TYPE, ITEM),
        triple(CARD, OPENS, ROPES),
        triple(ROPES, OPENS, SOMETHING),
        triple(SOMETHING, OPENS, CARD),
        triple(CARD, OPENS, NOTE),
    ];
    for new in closed {
        assert_eq!(rt; store.add(new), Ok(Added::New));
    }
}

fn name(n: u8) -> Position {
    Position::Name(n)
}

fn blank(k: u8) -> Position {
    Position::Blank(k)
}

fn row(subject: Position, predicate: u8, object: Position) -> GoalRow {
    GoalRow {
        subject,
        predicate: Position::Name(predicate),
        object,
    }
}

// The answer to a goal, and what the map's memory is then.
fn ask<S: TripleStore>(store: &S, goal: &[GoalRow]) -> (Result<Verdict, Refusal>, [u8; 9]) {
    let mut choices = [Choice::UNUSED; 32];
    let mut blanks = [MARK; 8];
    let mut map = [MARK; 9];
    let answer = embeds(store, &kinds(), goal, &mut choices, &mut blanks, &mut map);
    (answer, map)
}

fn is_no<S: TripleStore>(rt: &impl Abort, store: &S, goal: &[GoalRow]) {
    let (answer, map) = ask(store, goal);
    assert_eq!(rt; answer, Ok(Verdict::No));
    assert_eq!(rt; map, [MARK; 9]);
}

// The first terms of the map of a yes; the rest of the eight are 0, and the ninth byte is left.
fn is_yes<S: TripleStore>(rt: &impl Abort, store: &S, goal: &[GoalRow], terms: [u8; 4]) {
    let (answer, map) = ask(store, goal);
    assert_eq!(rt; answer, Ok(Verdict::Yes));
    let [a, b, c, d] = terms;
    assert_eq!(rt; map, [a, b, c, d, 0, 0, 0, 0, MARK]);
}

fn decides<S: TripleStore>(rt: &impl Abort, store: &mut S) {
    fill(rt, store);
    // no rows
    is_yes(rt, store, &[], [0; 4]);
    // names only
    is_yes(
        rt,
        store,
        &[row(name(FAMILY), SUB_CLASS, name(ITEM))],
        [0; 4],
    );
    is_no(rt, store, &[row(name(ITEM), SUB_CLASS, name(FAMILY))]);
    // a goal blank twice in a row, and two in its place
    is_no(rt, store, &[row(blank(0), OPENS, blank(0))]);
    is_yes(
        rt,
        store,
        &[row(blank(0), SUB_CLASS, blank(0))],
        [PASS, 0, 0, 0],
    );
    is_yes(
        rt,
        store,
        &[row(blank(2), OPENS, blank(3))],
        [0, 0, CARD, ROPES],
    );
    // a literal and a blank as objects
    is_yes(
        rt,
        store,
        &[row(blank(0), OPENS, name(NOTE))],
        [CARD, 0, 0, 0],
    );
    // one blank in two rows, whose first candidate does not do
    let two = [
        row(name(CARD), OPENS, blank(1)),
        row(blank(1), OPENS, blank(0)),
    ];
    is_yes(rt, store, &two, [SOMETHING, ROPES, 0, 0]);
    // a chain to the cycle's beginning, and past it
    let cycle = [
        row(blank(0), OPENS, blank(1)),
        row(blank(1), OPENS, blank(2)),
        row(blank(2), OPENS, blank(0)),
    ];
    is_yes(rt, store, &cycle, [CARD, ROPES, SOMETHING, 0]);
    let short = [
        row(blank(0), OPENS, blank(1)),
        row(blank(1), OPENS, blank(0)),
    ];
    is_no(rt, store, &short);
    // rows with nothing in common, the last of which fails
    let apart = [
        row(blank(0), OPENS, blank(1)),
        row(blank(2), TYPE, blank(3)),
        row(blank(4), OPENS, blank(4)),
    ];
    is_no(rt, store, &apart);
    // the same row twice
    let twice = [
        row(blank(0), TYPE, name(PASS)),
        row(blank(0), TYPE, name(PASS)),
    ];
    is_yes(rt, store, &twice, [CARD, 0, 0, 0]);
}

#[test]
fn decides_in_a_list(rt: HostRuntime) {
    let mut records = [UNUSED; 11];
    decides(&rt, &mut ListStore::new(&mut records));
}

#[test]
fn decides_in_a_cube(rt: HostRuntime) {
    let mut words = [u64::MAX; 4096];
    decides(&rt, &mut CubeStore::new(&mut words));
}

#[test]
fn decides_in_a_store_that_counts(rt: HostRuntime) {
    let mut records = [UNUSED; 11];
    let mut list = ListStore::new(&mut records);
    decides(&rt, &mut CountingStore::new(&mut list));
}

#[test]
fn refuses(rt: HostRuntime) {
    let mut records = [UNUSED; 1];
    let store = ListStore::new(&mut records);
    let fine = row(blank(7), OPENS, name(NOTE));
    assert_eq!(rt; ask(&store, &[fine; 33]), (Err(Refusal::Rows), [MARK; 9]));
    assert_eq!(rt; ask(&store, &[fine; 32]), (Ok(Verdict::No), [MARK; 9]));
    let unlike = [
        row(blank(8), OPENS, name(NOTE)),
        row(name(NOTE), OPENS, name(CARD)),
        row(name(SOMETHING), OPENS, name(CARD)),
        row(name(38), OPENS, name(CARD)),
        row(name(CARD), NOTE, name(CARD)),
        row(name(CARD), SOMETHING, name(CARD)),
        row(name(CARD), 38, name(CARD)),
        row(name(CARD), OPENS, name(SOMETHING)),
        row(name(CARD), OPENS, name(38)),
        row(name(CARD), OPENS, blank(8)),
        GoalRow {
            subject: name(CARD),
            predicate: blank(0),
            object: name(CARD),
        },
    ];
    for one in unlike {
        let (answer, map) = ask(&store, &[fine, one]);
        assert_eq!(rt; answer, Err(Refusal::Position));
        assert_eq!(rt; map, [MARK; 9]);
    }
}

#[test]
fn refuses_little_memory(rt: HostRuntime) {
    let mut records = [UNUSED; 1];
    let store = ListStore::new(&mut records);
    let goal = [row(blank(0), OPENS, name(NOTE)); 3];
    let kinds = kinds();
    let mut choices = [Choice::UNUSED; 3];
    let mut blanks = [MARK; 8];
    let mut map = [MARK; 8];
    let enough = embeds(&store, &kinds, &goal, &mut choices, &mut blanks, &mut map);
    assert_eq!(rt; enough, Ok(Verdict::No));
    let fewer = embeds(
        &store,
        &kinds,
        &goal,
        &mut choices[0..2],
        &mut blanks,
        &mut map,
    );
    assert_eq!(rt; fewer, Err(Refusal::Memory));
    let lower = embeds(
        &store,
        &kinds,
        &goal,
        &mut choices,
        &mut blanks[0..7],
        &mut map,
    );
    assert_eq!(rt; lower, Err(Refusal::Memory));
    let shorter = embeds(
        &store,
        &kinds,
        &goal,
        &mut choices,
        &mut blanks,
        &mut map[0..7],
    );
    assert_eq!(rt; shorter, Err(Refusal::Memory));
}

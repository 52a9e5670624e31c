// A small graph of the halls, closed over the list store and over the cube in each regime, and the sets compared triple by triple
// with each other and with what a script of its own computed.
use crate::expected::{HALLS_RDF, HALLS_RDFS, HALLS_SIMPLE};
use closing::closing::close;
use closing::kinds::TermKind;
use closing::refusal::Refusal;
use counting_store::CountingStore;
use cube_store::cube::CubeStore;
use entailment::regime::Regime;
use list_store::store::ListStore;
use std::process::Abort;
use triples::question::Pattern;
use triples::store::{Added, TripleStore};
use triples::triple::{Code, Triple};
use walks::step::{after, first};

const BLANK: Triple = Triple {
    subject: 0,
    predicate: 0,
    object: 0,
};

// FamilyPass 30, Pass 31, Item 32, opens 33, Hall 34, card 35, Ropes 36, a blank 37, rdf:_2 38.
const KINDS: [TermKind; 9] = [
    TermKind::Name,
    TermKind::Name,
    TermKind::Name,
    TermKind::Name,
    TermKind::Name,
    TermKind::Name,
    TermKind::Name,
    TermKind::Blank,
    TermKind::Position,
];

fn triple(subject: u8, predicate: u8, object: u8) -> Triple {
    Triple {
        subject,
        predicate,
        object,
    }
}

// FamilyPass SC Pass, Pass SC Item, opens domain Pass, opens range Hall, card opens Ropes, the blank opens Ropes, card _2 Ropes.
fn halls() -> [Triple; 7] {
    [
        triple(30, 23, 31),
        triple(31, 23, 32),
        triple(33, 21, 31),
        triple(33, 22, 34),
        triple(35, 33, 36),
        triple(37, 33, 36),
        triple(35, 38, 36),
    ]
}

// Walks the store, and compares its codes with those given.
fn holds<S: TripleStore>(rt: &impl Abort, store: &S, codes: &[Code]) {
    assert_eq!(rt; store.count(), codes.len());
    let mut candidate = first(store, Pattern::FREE);
    for code in codes {
        assert_eq!(rt; candidate.map(|triple| triple.code()), Some(*code));
        if let Some(triple) = candidate {
            candidate = after(store, Pattern::FREE, triple);
        }
    }
    assert_eq!(rt; candidate, None);
}

fn closes_halls<S: TripleStore>(rt: &impl Abort, store: &mut S) {
    let kept = halls();
    assert_eq!(rt; close(store, Regime::Rdfs, &KINDS, &kept), Ok(185));
    holds(rt, store, &HALLS_RDFS);
    assert_eq!(rt; close(store, Regime::Simple, &KINDS, &kept), Ok(7));
    holds(rt, store, &HALLS_SIMPLE);
    assert_eq!(rt; close(store, Regime::Rdf, &KINDS, &kept), Ok(21));
    holds(rt, store, &HALLS_RDF);
    assert_eq!(rt; close(store, Regime::Rdfs, &KINDS, &[]), Ok(156));
    assert_eq!(rt;
        close(store, Regime::Rdfs, &KINDS, &[triple(0, 39, 0)]),
        Err(Refusal::Outside)
    );
    holds(rt, store, &[]);
}

#[test]
fn list_closes(rt: HostRuntime) {
    let mut records = [triple(9, 9, 9); 185];
    let mut list = ListStore::new(&mut records);
    closes_halls(&rt, &mut list);
}

#[test]
fn cube_closes(rt: HostRuntime) {
    let mut words = [u64::MAX; 4096];
    let mut cube = CubeStore::new(&mut words);
    closes_halls(&rt, &mut cube);
}

#[test]
fn lent_and_counted_store_closes(rt: HostRuntime) {
    let mut records = [BLANK; 185];
    let mut list = ListStore::new(&mut records);
    let mut counting = CountingStore::new(&mut list);
    closes_halls(&rt, &mut counting);
    assert_eq!(rt; counting.calls().clears, 5);
}

// The closure of nothing at capacity `size` and at one less, over a store that held something.
fn closes_at<S: TripleStore>(rt: &impl Abort, store: &mut S, regime: Regime, size: usize) {
    assert_eq!(rt; store.add(triple(31, 31, 31)), Ok(Added::New));
    let expected = if store.capacity() < size {
        Err(Refusal::Full)
    } else {
        Ok(size)
    };
    assert_eq!(rt; close(store, regime, &[], &[]), expected);
    assert_eq!(rt; store.count(), expected.unwrap_or(0));
}

#[test]
fn room_for_the_closure_of_nothing(rt: HostRuntime) {
    let mut exact = [BLANK; 9];
    closes_at(&rt, &mut ListStore::new(&mut exact), Regime::Rdf, 9);
    let mut less = [BLANK; 8];
    closes_at(&rt, &mut ListStore::new(&mut less), Regime::Rdf, 9);
    let mut exact = [BLANK; 142];
    closes_at(&rt, &mut ListStore::new(&mut exact), Regime::Rdfs, 142);
    let mut less = [BLANK; 141];
    closes_at(&rt, &mut ListStore::new(&mut less), Regime::Rdfs, 142);
}

#[test]
fn no_room_at_all(rt: HostRuntime) {
    let mut words = [u64::MAX; 4095];
    let mut cube = CubeStore::new(&mut words);
    assert_eq!(rt; close(&mut cube, Regime::Simple, &KINDS, &[]), Ok(0));
    assert_eq!(rt;
        close(&mut cube, Regime::Rdf, &KINDS, &[]),
        Err(Refusal::Full)
    );
    assert_eq!(rt;
        close(&mut cube, Regime::Simple, &KINDS, &halls()),
        Err(Refusal::Full)
    );
}

#[test]
fn terms_past_the_side(rt: HostRuntime) {
    let mut words = [0; 4096];
    let mut cube = CubeStore::new(&mut words);
    let full = [TermKind::Name; 34];
    assert_eq!(rt;
        close(&mut cube, Regime::Rdf, &full, &[triple(63, 63, 63)]),
        Ok(11)
    );
    let more = [TermKind::Name; 35];
    assert_eq!(rt;
        close(&mut cube, Regime::Rdf, &more, &[]),
        Err(Refusal::Outside)
    );
    assert_eq!(rt; cube.count(), 0);
}

#[test]
fn numbers(rt: HostRuntime) {
    assert_eq!(rt; Refusal::Outside.number(), 6);
    assert_eq!(rt; Refusal::Full.number(), 22);
}

// The stores at work: the same calls on each of them, beside a set of codes of the library.
use counting_store::{Calls, CountingStore};
use cube_store::cube::CubeStore;
use list_store::store::ListStore;
use std::collections::BTreeSet;
use std::process::Abort;
use std::test::Fail;
use triples::question::{Pattern, Question};
use triples::store::{Added, Refusal, TripleStore};
use triples::triple::{Code, Triple};
use walks::copying::{Stopped, copy_all};
use walks::counting::count_fitting;
use walks::step::{after, first};
use walks::walk::Walk;

const BLANK: Triple = Triple {
    subject: 0,
    predicate: 0,
    object: 0,
};

fn triple(subject: u8, predicate: u8, object: u8) -> Triple {
    Triple {
        subject,
        predicate,
        object,
    }
}

// A sequence of triples of numbers below 64 that looks random, from a seed.
#[derive(Drop)]
struct Scattered(u32);

impl Iterator for Scattered {
    type Item = Triple;

    fn next(&mut self) -> Option<Triple> {
        let seed = self.0.wrapping_mul(1_664_525).wrapping_add(1_013_904_223);
        self.0 = seed;
        Some(triple(
            (seed >> 26) as u8,
            ((seed >> 20) & 7) as u8,
            ((seed >> 14) & 63) as u8,
        ))
    }
}

// Answers of an empty store with room for two triples at least.
fn behaves<S: TripleStore>(rt: &impl Abort, store: &mut S) {
    assert_eq!(rt; store.count(), 0);
    assert_eq!(rt; first(store, Pattern::FREE), None);
    assert_eq!(rt; store.add(triple(9, 1, 2)), Ok(Added::New));
    assert_eq!(rt; store.add(triple(3, 63, 5)), Ok(Added::New));
    assert_eq!(rt; store.add(triple(9, 1, 2)), Ok(Added::Had));
    assert_eq!(rt; store.count(), 2);
    assert!(rt; store.has(triple(3, 63, 5)) && !store.has(triple(3, 5, 63)));
    assert_eq!(rt; first(store, Pattern::FREE), Some(triple(3, 63, 5)));
    assert_eq!(rt;
        after(store, Pattern::FREE, triple(3, 63, 5)),
        Some(triple(9, 1, 2))
    );
    assert_eq!(rt; after(store, Pattern::FREE, triple(9, 1, 2)), None);
    let past = Question {
        lowest: Code::MAX,
        pattern: Pattern::FREE,
    };
    assert_eq!(rt; store.next(past), None);
    store.clear();
    assert_eq!(rt; store.count(), 0);
    assert!(rt; !store.has(triple(9, 1, 2)));
}

#[test]
fn list_behaves(rt: HostRuntime) {
    let mut records = [triple(9, 1, 2); 3];
    let mut list = ListStore::new(&mut records);
    behaves(&rt, &mut list);
    assert_eq!(rt; list.side(), 256);
    assert_eq!(rt; list.capacity(), 3);
    assert_eq!(rt; list.add(triple(255, 255, 255)), Ok(Added::New));
}

#[test]
fn cube_behaves(rt: HostRuntime) {
    let mut words = [u64::MAX; 4096];
    let mut cube = CubeStore::new(&mut words);
    behaves(&rt, &mut cube);
    assert_eq!(rt; cube.side(), 64);
    assert_eq!(rt; cube.capacity(), 262_144);
    assert_eq!(rt; cube.add(triple(63, 63, 63)), Ok(Added::New));
    assert_eq!(rt; cube.add(triple(0, 64, 0)), Err(Refusal::Outside));
}

#[test]
fn no_room(rt: HostRuntime) {
    let mut words = [u64::MAX; 4095];
    let mut cube = CubeStore::new(&mut words);
    assert_eq!(rt; cube.capacity(), 0);
    assert_eq!(rt; cube.add(BLANK), Err(Refusal::Full));
    assert_eq!(rt; cube.add(triple(64, 0, 0)), Err(Refusal::Outside));
    let mut records = [BLANK; 1];
    let mut list = ListStore::new(&mut records);
    assert_eq!(rt; list.add(triple(7, 7, 7)), Ok(Added::New));
    assert_eq!(rt; list.add(BLANK), Err(Refusal::Full));
    assert_eq!(rt; list.add(triple(7, 7, 7)), Ok(Added::Had));
}

// A cell's content is beyond contracts, so the count of questions is tested.
#[test]
fn calls_are_counted(rt: HostRuntime) {
    let mut records = [BLANK; 3];
    let mut list = ListStore::new(&mut records);
    let mut counting = CountingStore::new(&mut list);
    behaves(&rt, &mut counting);
    assert_eq!(rt;
        counting.calls(),
        Calls {
            questions: 11,
            adds: 3,
            clears: 1,
        }
    );
    let _ = counting.side();
    let _ = counting.capacity();
    assert_eq!(rt; counting.calls().questions, 13);
}

// Adds the first `n` triples of the sequence, and tells how many were new.
fn add_scattered<S: TripleStore>(store: &mut S, n: usize) -> usize {
    for triple in Scattered(1).take(n) {
        let _ = store.add(triple);
    }
    store.count()
}

// Walks the store, and compares its codes with those of the set.
fn agrees<S: TripleStore>(rt: &impl Abort, store: &S, codes: &BTreeSet<Code>) {
    assert_eq!(rt; store.count(), codes.len());
    let mut walk = Walk::new(store, Pattern::FREE);
    for code in codes {
        assert_eq!(rt; walk.next().map(|triple| triple.code()), Some(*code));
    }
    assert_eq!(rt; walk.next(), None);
}

#[test]
fn stores_agree(rt: HostRuntime) -> Result<(), Fail> {
    let mut codes = BTreeSet::new(rt.alloc());
    for triple in Scattered(1).take(700) {
        let _ = codes.insert(triple.code())?;
    }
    let mut records = [BLANK; 700];
    let mut list = ListStore::new(&mut records);
    assert_eq!(rt; add_scattered(&mut list, 700), codes.len());
    agrees(&rt, &list, &codes);
    let mut words = [0; 4096];
    let mut cube = CubeStore::new(&mut words);
    assert_eq!(rt; copy_all(&list, &mut cube), Ok(()));
    agrees(&rt, &cube, &codes);
    Ok(())
}

#[test]
fn copies_stop(rt: HostRuntime) {
    let mut records = [BLANK; 3];
    let mut list = ListStore::new(&mut records);
    let _ = list.add(triple(70, 0, 0));
    let _ = list.add(triple(1, 2, 3));
    let mut words = [0; 4096];
    let mut cube = CubeStore::new(&mut words);
    let stopped = Stopped {
        triple: triple(70, 0, 0),
        refusal: Refusal::Outside,
    };
    assert_eq!(rt; copy_all(&list, &mut cube), Err(stopped));
    assert_eq!(rt; cube.count(), 1);
}

#[test]
fn fitting_triples(rt: HostRuntime) {
    let mut words = [0; 4096];
    let mut cube = CubeStore::new(&mut words);
    let _ = add_scattered(&mut cube, 700);
    let total = (0..8u8).fold(0, |total: usize, predicate| {
        let pattern = Pattern {
            predicate: Some(predicate),
            ..Pattern::FREE
        };
        total.saturating_add(count_fitting(&cube, pattern))
    });
    assert_eq!(rt; total, cube.count());
    assert_eq!(rt; count_fitting(&cube, Pattern::FREE), cube.count());
}

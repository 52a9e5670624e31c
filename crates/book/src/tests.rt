// Books at their bounds. The tests stand in this crate, since a client cannot let a sheet go.
use crate::book::Book;
use crate::sheet::Sheet;
use cube_store::cube::CubeStore;
use entailment::regime::Regime;
use ledger::refusal::Refusal;
use list_store::store::ListStore;
use std::process::Abort;
use triples::store::{Added, TripleStore};
use triples::triple::{TermNumber, Triple};

const NO_TRIPLE: Triple = Triple {
    subject: 0,
    predicate: 0,
    object: 0,
};

fn lose(sheet: Sheet) {
    let Sheet { book: _ } = sheet;
}

fn strike<S: TripleStore>(book: &mut Book<S>, sheet: Sheet) -> Option<Refusal> {
    match book.strike(sheet) {
        Ok(()) => None,
        Err((refusal, sheet)) => {
            lose(sheet);
            Some(refusal)
        }
    }
}

fn keep<S: TripleStore>(book: &mut Book<S>, sheet: Sheet) -> Option<Refusal> {
    match book.keep(sheet) {
        Ok(()) => None,
        Err((refusal, sheet)) => {
            lose(sheet);
            Some(refusal)
        }
    }
}

// Enters every triple of two of the thirty and `type`, and tells how many are new and the last refusal.
fn enter_many<S: TripleStore>(book: &mut Book<S>, sheet: &Sheet) -> (u16, Option<Refusal>) {
    let mut new = 0;
    let mut last = None;
    for subject in 0u8..30 {
        for predicate in 0u8..30 {
            let triple = Triple {
                subject,
                predicate,
                object: 0,
            };
            match book.enter(sheet, triple) {
                Ok(Added::New) if new < 1000 => new += 1,
                Ok(_) => {}
                Err(refusal) => last = Some(refusal),
            }
        }
    }
    (new, last)
}

// Adds 300 blanks, and tells how many were served and the last refusal.
fn add_blanks<S: TripleStore>(book: &mut Book<S>, sheet: &Sheet) -> (u16, Option<Refusal>) {
    let mut served = 0;
    let mut last = None;
    for _ in 0u16..300 {
        match book.blank(sheet) {
            Ok(_) if served < 1000 => served += 1,
            Ok(_) => {}
            Err(refusal) => last = Some(refusal),
        }
    }
    (served, last)
}

// Names the IRI of 255 bytes that has this number in its second and third byte.
fn add_long<S: TripleStore>(
    book: &mut Book<S>,
    sheet: &Sheet,
    number: u8,
) -> Result<TermNumber, Refusal> {
    let mut text = [b'a'; 255];
    text[0] = b'<';
    text[1] = b'a' + number % 26;
    text[2] = b'a' + number / 26;
    text[254] = b'>';
    book.name(sheet, &text)
}

#[test]
fn five_hundred_and_twelve_triples(rt: HostRuntime) {
    let mut slots = [NO_TRIPLE; 4];
    let mut book = Book::new(ListStore::new(&mut slots), Regime::Simple, 7);
    match book.open() {
        Ok(sheet) => {
            let (new, last) = enter_many(&mut book, &sheet);
            let had = book.enter(&sheet, NO_TRIPLE);
            let kept = keep(&mut book, sheet);
            assert_eq!(rt; new, 512);
            assert_eq!(rt; last, Some(Refusal::TriplesFull));
            assert_eq!(rt; had, Ok(Added::Had));
            assert_eq!(rt; kept, None);
        }
        Err(_) => assert!(rt; false),
    }
}

#[test]
fn terms_up_to_the_side(rt: HostRuntime) {
    let mut slots = [NO_TRIPLE; 4];
    let mut book = Book::new(ListStore::new(&mut slots), Regime::Simple, 7);
    let mut words = [0u64; 4];
    let mut small = Book::new(CubeStore::new(&mut words), Regime::Simple, 7);
    match (book.open(), small.open()) {
        (Ok(sheet), Ok(other)) => {
            let (served, last) = add_blanks(&mut book, &sheet);
            let (fewer, full) = add_blanks(&mut small, &other);
            let known = small.name(&other, b"<http://www.w3.org/2000/01/rdf-schema#label>");
            // a sheet of another book with the same number is taken
            let taken = strike(&mut book, other);
            let back = strike(&mut small, sheet);
            assert_eq!(rt; served, 226);
            assert_eq!(rt; last, Some(Refusal::TermsFull));
            assert_eq!(rt; fewer, 34);
            assert_eq!(rt; full, Some(Refusal::TermsFull));
            assert_eq!(rt; known, Ok(29));
            assert_eq!(rt; taken, None);
            assert_eq!(rt; back, None);
        }
        (Ok(sheet), Err(_)) | (Err(_), Ok(sheet)) => {
            lose(sheet);
            assert!(rt; false);
        }
        (Err(_), Err(_)) => assert!(rt; false),
    }
}

#[test]
fn spellings_up_to_their_bounds(rt: HostRuntime) {
    let mut slots = [NO_TRIPLE; 4];
    let mut book = Book::new(ListStore::new(&mut slots), Regime::Simple, 7);
    match book.open() {
        Ok(sheet) => {
            let mut text = [b'a'; 256];
            text[0] = b'<';
            text[255] = b'>';
            let long = book.name(&sheet, &text);
            let mut last = Ok(0);
            for c in 0u8..32 {
                last = add_long(&mut book, &sheet, c);
            }
            text[31] = b'>';
            let exactly = book.name(&sheet, &text[..32]);
            let more = book.name(&sheet, b"<>");
            let again = book.name(&sheet, &text[..32]);
            let struck = strike(&mut book, sheet);
            assert_eq!(rt; long, Err(Refusal::NotLawful));
            assert_eq!(rt; last, Ok(61));
            assert_eq!(rt; exactly, Ok(62));
            assert_eq!(rt; more, Err(Refusal::BytesFull));
            assert_eq!(rt; again, Ok(62));
            assert_eq!(rt; struck, None);
        }
        Err(_) => assert!(rt; false),
    }
}

#[test]
fn another_number_is_refused(rt: HostRuntime) {
    let mut slots = [NO_TRIPLE; 4];
    let mut book = Book::new(ListStore::new(&mut slots), Regime::Simple, 7);
    let mut words = [0u64; 4];
    let mut second = Book::new(CubeStore::new(&mut words), Regime::Simple, 8);
    match (book.open(), second.open()) {
        (Ok(sheet), Ok(other)) => {
            let named = book.name(&other, b"<a>");
            let struck = strike(&mut book, other);
            let kept = keep(&mut second, sheet);
            assert_eq!(rt; named, Err(Refusal::NoSheet));
            assert_eq!(rt; struck, Some(Refusal::NoSheet));
            assert_eq!(rt; kept, Some(Refusal::NoSheet));
        }
        (Ok(sheet), Err(_)) | (Err(_), Ok(sheet)) => {
            lose(sheet);
            assert!(rt; false);
        }
        (Err(_), Err(_)) => assert!(rt; false),
    }
}

// The closure of nothing kept, in the regime RDF, has nine triples.
#[test]
fn nine_triples_close_and_eight_do_not(rt: HostRuntime) {
    let mut slots = [NO_TRIPLE; 9];
    let mut book = Book::new(ListStore::new(&mut slots), Regime::Rdf, 7);
    let mut fewer = [NO_TRIPLE; 8];
    let mut small = Book::new(ListStore::new(&mut fewer), Regime::Rdf, 7);
    assert_eq!(rt; book.close(), Ok(9));
    assert_eq!(rt; book.close(), Ok(9));
    assert_eq!(rt; small.close(), Err(Refusal::Capacity));
    match book.open() {
        Ok(sheet) => {
            let refused = book.close();
            lose(sheet);
            assert_eq!(rt; refused, Err(Refusal::StillOpen));
        }
        Err(_) => assert!(rt; false),
    }
}

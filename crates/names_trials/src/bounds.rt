// A table of names at its bounds: the longest spellings, the last byte, the last term of each side, and cut back.
use names::{Names, Refusal, View};
use std::process::Abort;

// Writes the spelling of an IRI of so many bytes, which differs from those of other marks.
fn write_iri(out: &mut [u8; 300], len: usize, mark: u8) {
    *out = [b'a'; 300];
    out[0] = b'<';
    if 2 < len && len < 300 {
        out[1] = b'A' + mark % 26;
        out[2] = b'A' + mark / 26 % 26;
        out[len - 1] = b'>';
    }
}

// Interns an IRI of so many bytes.
fn intern(names: &mut Names, len: usize, mark: u8, limit: usize) -> Result<u8, Refusal> {
    let mut out = [0; 300];
    write_iri(&mut out, len, mark);
    names.intern(&out[..len.min(300)], limit)
}

#[test]
fn the_thirty(rt: HostRuntime) {
    let mut names = Names::new();
    let class = b"<http://www.w3.org/2000/01/rdf-schema#Class>";
    assert_eq!(rt; names.len(), 30);
    assert_eq!(rt; names.find(class), Some(16));
    assert_eq!(rt; names.intern(class, 30), Ok(16));
    assert_eq!(rt; names.get(16), Some(View::Iri(class)));
    assert_eq!(rt; names.get(30), None);
    assert_eq!(rt; names.find(b""), None);
    assert_eq!(rt; names.intern(b"<x:new>", 30), Err(Refusal::Terms));
    assert_eq!(rt; names.blank(30), Err(Refusal::Terms));
}

#[test]
fn names_and_blanks(rt: HostRuntime) {
    let mut names = Names::new();
    assert_eq!(rt; names.intern(b"\"a\"", 64), Ok(30));
    assert_eq!(rt; names.blank(64), Ok(31));
    assert_eq!(rt; names.intern(b"<x:a>", 64), Ok(32));
    assert_eq!(rt; names.blank(64), Ok(33));
    assert_eq!(rt; names.intern(b"\"a\"@en", 64), Ok(34));
    assert_eq!(rt; names.intern(b"\"a\"", 64), Ok(30));
    assert_eq!(rt; names.find(b"\"a\"@en"), Some(34));
    assert_eq!(rt; names.get(30), Some(View::Literal(b"\"a\"")));
    assert_eq!(rt; names.get(31), Some(View::Blank));
    assert_eq!(rt; names.get(32), Some(View::Iri(b"<x:a>")));
    assert_eq!(rt; names.len(), 35);
    names.cut(32);
    assert_eq!(rt; names.find(b"<x:a>"), None);
    assert_eq!(rt; names.intern(b"<x:b>", 64), Ok(32));
    names.cut(0);
    assert_eq!(rt; names.len(), 30);
}

#[test]
fn what_is_no_lawful_spelling(rt: HostRuntime) {
    let mut names = Names::new();
    let not_lawful = Err(Refusal::NotLawful);
    assert_eq!(rt; names.intern(b"", 30), not_lawful);
    assert_eq!(rt; names.intern(b"x:a", 30), not_lawful);
    assert_eq!(rt; names.intern(b"_:b", 256), not_lawful);
    assert_eq!(rt; names.intern(b"\"\\t\"", 256), not_lawful);
    assert_eq!(rt; intern(&mut names, 256, 0, 30), not_lawful);
    assert_eq!(rt; intern(&mut names, 255, 0, 30), Err(Refusal::Terms));
    assert_eq!(rt; intern(&mut names, 255, 0, 31), Ok(30));
    assert_eq!(rt; names.len(), 31);
}

#[test]
fn the_last_byte(rt: HostRuntime) {
    let mut names = Names::new();
    for mark in 0..32 {
        assert_eq!(rt; intern(&mut names, 255, mark, 256), Ok(30 + mark));
    }
    // 8,160 bytes are used
    assert_eq!(rt; intern(&mut names, 33, 99, 256), Err(Refusal::Bytes));
    assert_eq!(rt; intern(&mut names, 33, 99, 62), Err(Refusal::Terms));
    assert_eq!(rt; intern(&mut names, 32, 99, 256), Ok(62));
    assert_eq!(rt; names.intern(b"<>", 256), Err(Refusal::Bytes));
    assert_eq!(rt; names.intern(b"<", 256), Err(Refusal::NotLawful));
    assert_eq!(rt; names.blank(256), Ok(63));
    assert_eq!(rt; intern(&mut names, 255, 31, 256), Ok(61));
    names.cut(62);
    assert_eq!(rt; intern(&mut names, 33, 99, 256), Err(Refusal::Bytes));
    assert_eq!(rt; intern(&mut names, 32, 98, 256), Ok(62));
}

// Fills a table up to a side.
fn fills(rt: &impl Abort, limit: usize, most: u8) {
    let mut names = Names::new();
    for mark in 0..most.saturating_sub(30) {
        if mark % 3 == 0 {
            assert_eq!(rt; names.blank(limit), Ok(30 + mark));
        } else {
            assert_eq!(rt; intern(&mut names, 8, mark, limit), Ok(30 + mark));
        }
    }
    assert_eq!(rt; names.len(), usize::from(most));
    if usize::from(most) == limit {
        assert_eq!(rt; names.blank(limit), Err(Refusal::Terms));
        assert_eq!(rt; names.intern(b"<x:new>", limit), Err(Refusal::Terms));
        assert_eq!(rt; names.intern(b"<x:new", limit), Err(Refusal::NotLawful));
        assert_eq!(rt; intern(&mut names, 8, 1, limit), Ok(31));
    } else {
        assert_eq!(rt; names.blank(limit), Ok(most));
        assert_eq!(rt; names.blank(limit), Err(Refusal::Terms));
        assert_eq!(rt; intern(&mut names, 8, 1, limit), Ok(31));
    }
}

#[test]
fn sides(rt: HostRuntime) {
    fills(&rt, 64, 64);
    fills(&rt, 256, 255);
    fills(&rt, 1000, 255);
}

// Short documents, and what a survey tells of them.
use crate::finding::Finding;
use crate::survey::survey;
use crate::tally::Survey;
use crate::verdict::{Refusal, Refused};
use ntriples::fault::FaultKind;
use spelling::TooLong;
use std::alloc::{AllocError, Global};
use std::process::Abort;
use std::test::Fail;

// The line, the refusal number and the offset of a finding.
type Told = (usize, u8, usize);

fn first_finding(s: &Survey) -> Option<Told> {
    let f = s.findings.first()?;
    Some((f.line, f.refused.refusal.number(), f.refused.offset))
}

// The counts are of lines, triples, comments, empty lines and findings.
fn expect(
    rt: &impl Abort,
    heap: Global,
    text: &[u8],
    counts: [usize; 5],
    finding: Option<Told>,
) -> Result<(), Fail> {
    let s = survey(heap, text)?;
    assert_eq!(rt;
        [s.lines, s.triples, s.comments, s.empty, s.findings.len()],
        counts
    );
    assert_eq!(rt; first_finding(&s), finding);
    Ok(())
}

// A triple whose object is a literal of `n` letters.
fn with_literal(heap: Global, n: usize) -> Result<Vec<u8>, AllocError> {
    let mut text = Vec::from_slice(heap, b"<s> <p> \"")?;
    for _ in 0..n {
        text.push(b'a')?;
    }
    text.extend_from_slice(b"\" .\n")?;
    Ok(text)
}

#[test]
fn counts(rt: HostRuntime) -> Result<(), Fail> {
    let heap = rt.alloc();
    expect(&rt, heap, b"", [0, 0, 0, 0, 0], None)?;
    expect(&rt, heap, b"<s> <p> <o> .\n", [1, 1, 0, 0, 0], None)?;
    expect(&rt, heap, b"# no end", [1, 0, 1, 0, 0], None)?;
    expect(
        &rt,
        heap,
        b"<s> <p> <o> .\r\n# c\r\n\r\n",
        [3, 1, 1, 1, 0],
        None,
    )?;
    expect(&rt, heap, b"\r\r\n\n", [3, 0, 0, 3, 0], None)?;
    expect(&rt, heap, b"<s> <p> \"\x00\" .", [1, 1, 0, 0, 0], None)
}

#[test]
fn findings(rt: HostRuntime) -> Result<(), Fail> {
    let heap = rt.alloc();
    expect(
        &rt,
        heap,
        b"<s> <p> \"\xC3\xA9\" .\n",
        [1, 0, 0, 0, 1],
        Some((1, 1, 9)),
    )?;
    expect(
        &rt,
        heap,
        b"# c\r\n<s> <p> \"\\u0041\" .\n",
        [2, 0, 1, 0, 1],
        Some((2, 2, 15)),
    )?;
    expect(
        &rt,
        heap,
        b"\n\n<s> <p> .\n<s>",
        [4, 0, 0, 2, 2],
        Some((3, 3, 10)),
    )
}

#[test]
fn long_spellings(rt: HostRuntime) -> Result<(), Fail> {
    let heap = rt.alloc();
    let longest = with_literal(heap, 253)?;
    expect(&rt, heap, longest.as_slice(), [1, 1, 0, 0, 0], None)?;
    let too_long = with_literal(heap, 254)?;
    expect(
        &rt,
        heap,
        too_long.as_slice(),
        [1, 0, 0, 0, 1],
        Some((1, 4, 8)),
    )
}

fn prints(rt: &impl Abort, heap: Global, refusal: Refusal, want: &str) -> Result<(), Fail> {
    let refused = Refused {
        refusal,
        offset: 57,
    };
    let finding = Finding { line: 3, refused };
    let text = finding.to_string(heap)?;
    assert_eq!(rt; text.as_str(), want);
    Ok(())
}

#[test]
fn sentences(rt: HostRuntime) -> Result<(), Fail> {
    let heap = rt.alloc();
    let high = Refusal::Fault(FaultKind::HighByte);
    let escape = Refusal::Fault(FaultKind::UnicodeEscape);
    let unexpected = Refusal::Fault(FaultKind::Unexpected);
    let long = Refusal::TooLong(TooLong);
    prints(
        &rt,
        heap,
        high,
        "line 3, offset 57: refused 1: a byte above 127 stands here",
    )?;
    prints(
        &rt,
        heap,
        escape,
        "line 3, offset 57: refused 2: the escapes \\u and \\U are not read",
    )?;
    prints(
        &rt,
        heap,
        unexpected,
        "line 3, offset 57: refused 3: the line cannot go on here",
    )?;
    prints(
        &rt,
        heap,
        long,
        "line 3, offset 57: refused 4: the spelling of this term has more than 255 bytes",
    )
}

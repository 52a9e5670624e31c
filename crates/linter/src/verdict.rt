// The verdict on one line.
ghost use Rattle.std.specs.Prelude.{◌≡◌, MatchResult};
ghost use Rattle.ntriples.specs.Answers.{located_term, line_reading, reading};
ghost use Rattle.linter.specs.Answers.{refusal_number, too_long_at, verdict};
ghost use Rattle.linter.specs.Verdicts.{Long, Judged, JudgedTriple, Verdict as Judgement};

use ntriples::fault::{Fault, FaultKind};
use ntriples::token::{Line, Located, Statement, Token};
use spelling::{LONGEST, TooLong, spell};
use std::fmt;

// Why a line is refused: it cannot be read, or it names something whose spelling is too long.
#[derive(Clone, Copy, Debug, PartialEq, Eq)]
pub enum Refusal {
    Fault(FaultKind),
    TooLong(TooLong),
}

impl Refusal {
    // The refusal number, which the value inside tells; so there are no discriminants.
    pub fn number(self) -> u8
        ensures { result ≡ refusal_number self }
    {
        match self {
            Refusal::Fault(kind) => kind.number(),
            Refusal::TooLong(long) => long.number(),
        }
    }
}

impl fmt::Display for Refusal {
    ghost use Rattle.std.specs.Prelude.{Some};
    ghost use Rattle.linter.specs.Sentences.{reason};

    ghost output = { λ r. Some (reason r) };

    fn fmt<W: fmt::Write>(&self, f: &mut fmt::Formatter<W>) -> fmt::Result {
        f.write_str(match self {
            Refusal::Fault(FaultKind::HighByte) => "a byte above 127 stands here",
            Refusal::Fault(FaultKind::UnicodeEscape) => "the escapes \\u and \\U are not read",
            Refusal::Fault(FaultKind::Unexpected) => "the line cannot go on here",
            Refusal::TooLong(_) => "the spelling of this term has more than 255 bytes",
        })
    }
}

// Why a line is refused, and at which offset.
#[derive(Clone, Copy, Debug, PartialEq, Eq)]
pub struct Refused {
    pub refusal: Refusal,
    pub offset: usize,
}

impl From<Fault> for Refused {
    ghost use Rattle.linter.specs.Answers.{fault_at};

    ghost from_gives = { λ f e. e ≡ fault_at f };

    fn from(fault: Fault) -> Refused {
        Refused {
            refusal: Refusal::Fault(fault.kind),
            offset: fault.offset,
        }
    }
}

// What a line holds that is not refused.
#[derive(Clone, Copy, Debug, PartialEq, Eq)]
pub enum Content {
    Triple,
    Comment,
    Empty,
}

// What a line holds, or why it is refused.
pub type Verdict = Result<Content, Refused>;

// Refuses a term that names something whose spelling is too long.
fn measure(term: Located<Token>) -> Result<(), Refused>
    ensures { MatchResult result (λ _. ¬ Long (located_term term.entry)) (λ e. Long (located_term term.entry) × (e ≡ too_long_at term.entry.offset)) }
{
    let mut buffer = [0u8; LONGEST];
    let _ = spell(term.item, &mut buffer).map_err(|long| Refused {
        refusal: Refusal::TooLong(long),
        offset: term.offset,
    })?;
    Ok(())
}

// The verdict on a triple: it is refused at the first of its terms that is too long.
fn judge_triple(triple: &Statement) -> Verdict
    ensures { JudgedTriple (located_term triple.now.subject) (located_term triple.now.predicate) (located_term triple.now.object) (verdict result) }
{
    measure(triple.subject)?;
    measure(triple.predicate)?;
    measure(triple.object)?;
    Ok(Content::Triple)
}

// The verdict on a line that can be read.
fn judge_line(line: Line) -> Verdict
    ensures { Judged (line_reading line.entry) (verdict result) }
{
    match line {
        Line::Triple(triple) => judge_triple(&triple.item),
        Line::Comment => Ok(Content::Comment),
        Line::Empty => Ok(Content::Empty),
    }
}

// The verdict on a line that is read so, which is the only one that it can get.
pub fn judge(outcome: Result<Line, Fault>) -> Verdict
    ensures judged { Judged (reading outcome.entry) (verdict result) }
    ensures only { (v : Judgement) → Judged (reading outcome.entry) v → v ≡ verdict result }
{
    let line = outcome?;
    judge_line(line)
}

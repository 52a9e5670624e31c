// The survey of a whole document.
ghost use Rattle.std.specs.Prelude.{◌≡◌, ◌<◌, false, ◌&&◌, List, length, IfOk, ◌==◌, slice_index};
ghost use Rattle.grammar.specs.Documents.{Row, Lines, joined};
ghost use Rattle.linter.specs.Answers.{Tells};
ghost use Rattle.linter.specs.Verdicts.{Verdict as Judgement, Verdicts, shown};

use crate::tally::Survey;
use crate::verdict::judge;
use ntriples::document::read_line;
use std::alloc::{AllocError, Global};

// Whether the line that begins at `pos` is the line feed of CR LF, and so no line of its own.
fn is_half_of_pair(text: &[u8], pos: usize, after_cr: bool) -> bool
    requires { pos < length text.now }
    ensures { result ≡ (after_cr && slice_index text.now pos == 10) }
{
    after_cr && text[pos] == b'\n'
}

// The survey of the document. An offset is kept and no iterator of lines, since the first byte of the next line is looked
// at together with the last of this one. A line feed that follows a carriage return is part of that line's end, and no line.
#[tactic(auto, using(crate::proofs::Bytes::lengths))]
pub fn survey(heap: Global, text: &[u8]) -> Result<Survey, AllocError>
    ensures exists { IfOk result (λ s. (rows : List Row) × (vs : List Judgement) × Lines 0 text.now rows × (joined rows ≡ text.now) × Verdicts (shown false rows) vs × Tells vs s) }
    ensures only { IfOk result (λ s. (rows : List Row) (vs : List Judgement) → Lines 0 text.now rows → Verdicts (shown false rows) vs → Tells vs s) }
{
    let mut survey = Survey::new(heap);
    let mut pos = 0;
    // a flag, since the test on the text before `pos` would be no shorter and be made anew
    let mut after_cr = false;
    while let Some(line) = read_line(text, pos) {
        if !is_half_of_pair(text, pos, after_cr) {
            survey.add(judge(line.outcome))?;
        }
        after_cr = text[line.next - 1] == b'\r';
        pos = line.next;
    }
    Ok(survey)
}

// What is counted of a document's lines.
ghost use Rattle.std.specs.Prelude.{[], OnOk};
ghost use Rattle.linter.specs.Adding.{Room, Added};
ghost use Rattle.linter.specs.Answers.{Tells};

use crate::finding::Finding;
use crate::verdict::{Content, Verdict};
use std::alloc::{AllocError, Global};
use std::fmt;

// How many lines a document has, how many of each kind, and those that are refused.
#[derive(Drop)]
pub struct Survey {
    pub lines: usize,
    pub triples: usize,
    pub comments: usize,
    pub empty: usize,
    pub findings: Vec<Finding>,
}

impl Survey {
    // The survey of no line.
    pub(crate) fn new(heap: Global) -> Survey
        ensures { Tells [] result }
    {
        Survey {
            lines: 0,
            triples: 0,
            comments: 0,
            empty: 0,
            findings: Vec::new(heap),
        }
    }

    // Counts one line more, with its verdict.
    pub(crate) fn add(&mut self, judged: Verdict) -> Result<(), AllocError>
        requires { Room self.old }
        ensures { OnOk result (Added judged self.old self.new) }
    {
        self.lines += 1;
        match judged {
            Ok(Content::Triple) => self.triples += 1,
            Ok(Content::Comment) => self.comments += 1,
            Ok(Content::Empty) => self.empty += 1,
            Err(refused) => {
                let line = self.lines;
                self.findings.push(Finding { line, refused })?;
            }
        }
        Ok(())
    }
}

impl fmt::Display for Survey {
    ghost use Rattle.std.specs.Prelude.{Some};
    ghost use Rattle.linter.specs.Sentences.{summary};

    ghost output = { λ s. Some (summary s) };

    fn fmt<W: fmt::Write>(&self, f: &mut fmt::Formatter<W>) -> fmt::Result {
        let lines = self.lines;
        let triples = self.triples;
        let comments = self.comments;
        let empty = self.empty;
        let unreadable = self.findings.len();
        write!(
            f,
            "lines: {lines}, triples: {triples}, comments: {comments}, empty: {empty}, cannot be read: {unreadable}"
        )
    }
}

// The ledger in memory.
use crate::naming;
use ledger::mark::Mark;
use ledger::refusal::Refusal;
use list_store::records::position;
use names::Names;
use std::marker::Model;
use term_kinds::KindsAfterThirty;
use triples::store::Added;
use triples::triple::{TermNumber, Triple};

// The most triples of a book.
const MOST_TRIPLES: usize = 512;

// The terms and triples of a book, and what stood at open while a sheet is open. No heap here: arrays with room for all.
#[derive(Drop)]
pub struct Register {
    names: Names,
    triples: [Triple; MOST_TRIPLES],
    len: usize,
    mark: Option<Mark>,
}

// Clauses see the ledger.
impl Model for Register {
    ghost use Rattle.ledger.specs.Ledger.{Ledger};
    ghost use Rattle.register.specs.Kept.{ledger_of, IsKept};

    ghost Value = { Ledger };

    ghost view = { λ r. ledger_of r.names r.triples r.len r.mark };

    ghost invariant = { λ r. IsKept r.names r.triples r.len r.mark };
}

impl Register {
    ghost use Rattle.std.specs.Prelude.{◌≡◌, true, Some, map, min};
    ghost use Rattle.triples.specs.Sets.{among};
    ghost use Rattle.names.specs.Terms.{most_terms};
    ghost use Rattle.closing.specs.Kinds.{kind};
    ghost use Rattle.ledger.specs.Ledger.{fresh, terms, is_open as has_sheet, counts, with_mark, cut_to};
    ghost use Rattle.ledger.specs.Steps.{bytes_step, blank_step, has_terms as terms_are, is_sayable as may_stand, put_step, enter_step, keep_step};
    ghost use Rattle.ledger.specs.Texts.{Names as Naming};
    ghost use Rattle.ledger.specs.Soundness.{Sound};

    // The thirty, no triple and no open sheet.
    pub fn new() -> Register
        ensures { result ≡ fresh }
    {
        Register {
            names: Names::new(),
            triples: [Triple {
                subject: 0,
                predicate: 0,
                object: 0,
            }; MOST_TRIPLES],
            len: 0,
            mark: None,
        }
    }

    // What is so of every ledger that is kept here.
    pub fn sound(&self)
        ensures { Sound self.now }
    {
        let _len = self.len;
    }

    // The triples, in the order in which they came.
    pub fn triples(&self) -> &[Triple]
        ensures { result.now ≡ self.now.triples }
    {
        &self.triples[..self.len]
    }

    // The kinds of the terms after the thirty.
    pub fn kinds(&self) -> KindsAfterThirty
        ensures { result ≡ map kind self.now.more }
    {
        KindsAfterThirty::of(&self.names)
    }

    // Whether a sheet is open.
    pub fn is_open(&self) -> bool
        ensures { result ≡ has_sheet self.now }
    {
        self.mark.is_some()
    }

    // Puts the name into the table.
    fn add_name(&mut self, spelling: &[u8], side: usize) -> Result<TermNumber, Refusal>
        ensures { Naming spelling.now (λ lawful. bytes_step lawful (min side most_terms) spelling.now self.old) (record { answer = result; after = self.new }) }
    {
        naming::intern(&mut self.names, spelling, side)
    }

    // The number of the name with this spelling; with a new one there are at most `side` terms.
    pub fn name(&mut self, spelling: &[u8], side: usize) -> Result<TermNumber, Refusal>
        ensures { Naming spelling.now (λ lawful. bytes_step lawful (min side most_terms) spelling.now self.old) (record { answer = result; after = self.new }) }
    {
        self.add_name(spelling, side)
    }

    // Puts a blank into the table.
    fn add_blank(&mut self, side: usize) -> Result<TermNumber, Refusal>
        ensures { record { answer = result; after = self.new } ≡ blank_step (min side most_terms) self.old }
    {
        naming::add_blank(&mut self.names, side)
    }

    // A new blank.
    pub fn blank(&mut self, side: usize) -> Result<TermNumber, Refusal>
        ensures { record { answer = result; after = self.new } ≡ blank_step (min side most_terms) self.old }
    {
        self.add_blank(side)
    }

    // Whether each number has a term.
    fn has_terms(&self, triple: Triple) -> bool
        ensures { result ≡ terms_are triple self.now }
    {
        let len = self.names.len();
        usize::from(triple.subject) < len
            && usize::from(triple.predicate) < len
            && usize::from(triple.object) < len
    }

    // Whether the subject is no literal and the predicate an IRI.
    fn is_sayable(&self, triple: Triple) -> bool
        ensures { result ≡ may_stand triple self.now }
    {
        !naming::is_literal(&self.names, triple.subject)
            && naming::is_iri(&self.names, triple.predicate)
    }

    // Whether the triple stands.
    fn has(&self, triple: Triple) -> bool
        ensures { result ≡ among self.now.triples triple }
    {
        position(&self.triples[0..self.len], triple).is_some()
    }

    // Enters a triple of terms that there are.
    fn put(&mut self, triple: Triple) -> Result<Added, Refusal>
        requires { terms_are triple self.old ≡ true }
        ensures { record { answer = result; after = self.new } ≡ put_step triple self.old }
    {
        if self.has(triple) {
            return Ok(Added::Had);
        }
        if self.len == MOST_TRIPLES {
            return Err(Refusal::TriplesFull);
        }
        self.triples[self.len] = triple;
        self.len += 1;
        Ok(Added::New)
    }

    // Enters a triple.
    pub fn enter(&mut self, triple: Triple) -> Result<Added, Refusal>
        ensures { record { answer = result; after = self.new } ≡ enter_step triple self.old }
    {
        if !self.has_terms(triple) {
            return Err(Refusal::NoTerm);
        }
        if !self.is_sayable(triple) {
            return Err(Refusal::NotSayable);
        }
        self.put(triple)
    }

    // Writes down how many there are.
    fn note_counts(&mut self)
        ensures { self.new ≡ with_mark (Some (counts self.old)) self.old }
    {
        let terms = self.names.len();
        self.mark = Some(Mark {
            terms,
            triples: self.len,
        });
    }

    // Notes what stands, as open does.
    pub fn note(&mut self)
        ensures { self.new ≡ with_mark (Some (counts self.old)) self.old }
    {
        self.note_counts();
    }

    // Drops what was noted, as keep does, unless there are too many triples.
    pub fn keep(&mut self) -> Result<(), Refusal>
        ensures { record { answer = result; after = self.new } ≡ keep_step self.old }
    {
        if self.len > MOST_TRIPLES {
            return Err(Refusal::TooMany);
        }
        self.mark = None;
        Ok(())
    }

    // Cuts terms and triples back.
    fn cut_back(&mut self)
        ensures { self.new ≡ cut_to self.old.mark self.old }
    {
        if let Some(mark) = self.mark {
            self.names.cut(mark.terms);
            self.len = mark.triples;
            self.mark = None;
        }
    }

    // Goes back to what was noted, as strike does.
    pub fn strike(&mut self)
        ensures { self.new ≡ cut_to self.old.mark self.old }
    {
        self.cut_back();
    }
}

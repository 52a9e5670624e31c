// The table of names.
ghost use Rattle.std.specs.Prelude.{◌≡◌, ◌+◌, ◌-◌, ◌<◌, ◌≤◌, ℕ, List, [], ◌∷◌, ◌++◌, length, take, slice_get, option_map, Option, Result, IfSome, Decides};
ghost use Rattle.spelling.specs.Names.{Lawful};
ghost use Rattle.entailment.specs.Terms.{Term};
ghost use Rattle.names.specs.Terms.{term_spelled, HasSpelling, IsLawful, spelled_bytes, most_bytes, most_terms, all_terms, IsNumberOf, IsUnknown, IsTable};
ghost use Rattle.names.specs.declared.refusal.Refusal.{Refusal};
ghost use Rattle.names.specs.Calls.{term_of, Finds, IsFull, Appends, Interns, AddsBlank};

use crate::refusal::Refusal;
use crate::span::Span;
use crate::view::View;
use crate::vocabulary;
use spelling::is_lawful;
use std::marker::Model;
use triples::triple::TermNumber;

// How many terms every book begins with.
const BEGINNING: usize = 30;

// The most terms of a book, the first thirty included.
const MOST_TERMS: usize = 256;

// The most bytes that the spellings of the terms after the thirty take.
const MOST_BYTES: usize = 8192;

// The terms of a book. Of the terms after the thirty, each has a span of the bytes, one after another, with its spelling; that
// of a blank is empty. No heap here: arrays with room for all, and how much of them is used.
#[derive(Drop)]
pub struct Names {
    bytes: [u8; MOST_BYTES],
    used: usize,
    spans: [Span; MOST_TERMS - BEGINNING],
    len: usize,
}

// Clauses see the terms after the thirty, in the order of their numbers; the terms of the book are the thirty and these.
impl Model for Names {
    ghost use Rattle.std.specs.Prelude.{List, take};
    ghost use Rattle.entailment.specs.Terms.{Term};
    ghost use Rattle.names.specs.Spans.{terms_in, IsPacked};

    ghost Value = { List Term };

    ghost view = { λ t. terms_in t.bytes (take t.len t.spans) };

    ghost invariant = { λ t. IsPacked t.bytes t.used t.spans t.len };
}

impl Names {
    // A table that begins empty, whatever the bytes and the spans are.
    fn over(bytes: [u8; MOST_BYTES], spans: [Span; MOST_TERMS - BEGINNING]) -> Names
        ensures { result ≡ [] }
    {
        Names {
            bytes,
            used: 0,
            spans,
            len: 0,
        }
    }

    // The thirty alone.
    pub fn new() -> Names
        ensures { result ≡ [] }
    {
        let spans = [Span { start: 0, end: 0 }; MOST_TERMS - BEGINNING];
        Names::over([0; MOST_BYTES], spans)
    }

    // What is so of every table.
    pub fn lawful(&self)
        ensures { IsTable self.now }
    {
        let _used = self.used;
    }

    // How many terms there are after the thirty.
    fn added(&self) -> usize
        ensures counts { result ≡ length self.now }
        ensures most { 30 + result ≤ most_terms }
    {
        self.len
    }

    // How many terms there are, the thirty included.
    #[tactic(auto, using(crate::proofs::Beginning::length_all_terms))]
    pub fn len(&self) -> usize
        ensures counts { result ≡ length (all_terms self.now) }
        ensures most { result ≤ most_terms }
    {
        BEGINNING + self.added()
    }

    // The spelling of the term of a number, empty for a blank; none for a number without a term.
    fn spelling(&self, number: usize) -> Option<&[u8]>
        ensures { option_map (λ s. term_spelled s.now) result ≡ slice_get (all_terms self.now) number }
    {
        if number < BEGINNING {
            return Some(vocabulary::spelling(number));
        }
        let place = number - BEGINNING;
        if place >= self.len {
            return None;
        }
        Some(self.spans[place].of(&self.bytes))
    }

    // Whether the number is that of the name with this spelling.
    fn is_at(&self, number: usize, spelling: &[u8]) -> bool
        ensures { Decides result (IsNumberOf spelling.now (all_terms self.now) number) }
    {
        match self.spelling(number) {
            Some(own) => View::of(own).has_spelling(spelling),
            None => false,
        }
    }

    // What the term of a number is; none for a number without a term.
    pub fn get(&self, number: TermNumber) -> Option<View>
        ensures { option_map term_of result ≡ slice_get (all_terms self.now) number }
    {
        Some(View::of(self.spelling(usize::from(number))?))
    }

    // The first number of a name with this spelling.
    fn position(&self, spelling: &[u8]) -> Option<TermNumber>
        ensures { Finds spelling.now self.now result }
    {
        for number in 0..self.len() {
            if self.is_at(number, spelling) {
                return Some(number as TermNumber);
            }
        }
        None
    }

    // The number of the name with this spelling, which is lawful if there is one.
    pub fn find(&self, spelling: &[u8]) -> Option<TermNumber>
        ensures finds { Finds spelling.now self.now result }
        ensures only { (r : Option ℕ) → Finds spelling.now self.now r → r ≡ result }
        ensures lawful { IfSome result (λ _. Lawful spelling.now) }
    {
        self.lawful();
        self.position(spelling)
    }

    // Whether there are as many terms as the limit, or 256.
    fn is_full(&self, limit: usize) -> bool
        ensures { Decides result (IsFull limit self.now) }
    {
        limit.min(MOST_TERMS) <= self.len()
    }

    // How many bytes are left for spellings.
    fn room(&self) -> usize
        ensures { result + spelled_bytes self.now ≡ most_bytes }
    {
        MOST_BYTES - self.used
    }

    // Adds the term that the bytes spell, and tells its number.
    fn push(&mut self, spelling: &[u8]) -> TermNumber
        requires few { length (all_terms self.old) < most_terms }
        requires fits { spelled_bytes self.old + length spelling.now ≤ most_bytes }
        requires lawful { IsLawful (term_spelled spelling.now) }
        requires unknown { (b : List ℕ) → HasSpelling b (term_spelled spelling.now) → IsUnknown b (all_terms self.old) }
        ensures { Appends (term_spelled spelling.now) self.old self.new result }
    {
        let number = self.len();
        let span = Span::write(&mut self.bytes, self.used, spelling);
        self.spans[self.len] = span;
        self.used = usize::from(span.end);
        self.len += 1;
        number as TermNumber
    }

    // The number of the name with this spelling, which is added where it is new.
    fn find_or_add(&mut self, spelling: &[u8], limit: usize) -> Result<TermNumber, Refusal>
        ensures { Interns spelling.now limit self.old self.new result }
    {
        if let Some(number) = self.find(spelling) {
            return Ok(number);
        }
        if !is_lawful(spelling) {
            return Err(Refusal::NotLawful);
        }
        if self.is_full(limit) {
            return Err(Refusal::Terms);
        }
        if self.room() < spelling.len() {
            return Err(Refusal::Bytes);
        }
        Ok(self.push(spelling))
    }

    // The number of the name with this spelling, which is added where it is new. A new name is refused where there are as many
    // terms as the limit, the side of a store, or 256.
    pub fn intern(&mut self, spelling: &[u8], limit: usize) -> Result<TermNumber, Refusal>
        ensures interns { Interns spelling.now limit self.old self.new result }
        ensures only { (r : Result ℕ Refusal) (more : List Term) → Interns spelling.now limit self.old more r → (r ≡ result) × (more ≡ self.new) }
    {
        self.lawful();
        self.find_or_add(spelling, limit)
    }

    // Adds a blank, and tells its number. It is refused as a new name is.
    pub fn blank(&mut self, limit: usize) -> Result<TermNumber, Refusal>
        ensures { AddsBlank limit self.old self.new result }
    {
        if self.is_full(limit) {
            return Err(Refusal::Terms);
        }
        self.lawful(); // no bytes more always fit
        Ok(self.push(&[]))
    }

    // Keeps the first `n` of the terms after the thirty, or all where there are no more.
    fn truncate(&mut self, n: usize)
        ensures { self.new ≡ take n self.old }
    {
        if n < self.len {
            self.used = usize::from(self.spans[n].start);
            self.len = n;
        }
    }

    // Keeps the first `len` terms, but always the thirty; the others are gone, with their bytes.
    pub fn cut(&mut self, len: usize)
        ensures { self.new ≡ take (len - 30) self.old }
    {
        self.truncate(len.saturating_sub(BEGINNING));
    }
}

// The book.
ghost use Rattle.std.specs.Prelude.{◌≤◌, length};
ghost use Rattle.ledger.specs.Ledger.{terms};

use crate::filling::fill;
use crate::sheet::Sheet;
use crate::state::State;
use closing::kinds::TermKind;
use entailment::regime::Regime;
use ledger::refusal::Refusal;
use register::Register;
use triples::store::{Added, TripleStore};
use triples::triple::{TermNumber, Triple};

// A ledger, with a regime and a number, on top of a store. There are no more terms than the side of the store.
#[derive(Drop)]
pub struct Book<S: TripleStore> {
    pub(crate) store: S,
    pub(crate) regime: Regime,
    pub(crate) number: u8,
    pub(crate) state: State,
    pub(crate) ledger: Register,
    ghost fits: { length (terms ledger) ≤ S.TripleStore.side_of store },
}

impl<S: TripleStore> Book<S> {
    ghost use Rattle.std.specs.Prelude.{◌≡◌, true, IfErr, cond, map};
    ghost use Rattle.ledger.specs.Ledger.{fresh, is_open, with_mark, counts};
    ghost use Rattle.ledger.specs.Steps.{open_step, under, blank_step, enter_step, keep_step, strike_step, is_refused};
    ghost use Rattle.ledger.specs.Texts.{NamesUnder};
    ghost use Rattle.closing.specs.Kinds.{kind};
    ghost use Rattle.book.specs.Closings.{Closes};
    ghost use Rattle.book.specs.Sheets.{shown, opened, answered};
    ghost use Rattle.book.specs.declared.state.State.TheVariants.{Unclosed};

    // A book on a store, whatever the store holds.
    pub fn new(store: S, regime: Regime, number: u8) -> Book<S>
        ensures parts { (result.store ≡ store) × (result.regime ≡ regime) × (result.number ≡ number) }
        ensures unclosed { result.state ≡ Unclosed }
        ensures ledger { result.ledger ≡ fresh }
    {
        Book {
            store,
            regime,
            number,
            state: State::Unclosed,
            ledger: Register::new(),
        }
    }

    // Whether a call that shows this sheet is refused by 10.
    fn refuses(&self, sheet: &Sheet) -> bool
        ensures { result ≡ is_refused self.now.number (shown sheet.now) self.now.ledger }
    {
        !(self.ledger.is_open() && sheet.book == self.number)
    }

    // Gives a sheet with this book's number. The store stays as it is.
    pub fn open(&mut self) -> Result<Sheet, Refusal>
        ensures step { record { answer = opened result; after = self.new.ledger } ≡ open_step self.old.number self.old.ledger }
        ensures state { self.new.state ≡ cond (is_open self.old.ledger) self.old.state Unclosed }
        ensures store { self.new.store ≡ self.old.store }
        ensures same { (self.new.regime ≡ self.old.regime) × (self.new.number ≡ self.old.number) }
    {
        if self.ledger.is_open() {
            return Err(Refusal::AlreadyOpen);
        }
        self.ledger.note();
        self.state = State::Unclosed;
        Ok(Sheet { book: self.number })
    }

    // The number of the name with this spelling, which is added where it is new.
    pub fn name(&mut self, sheet: &Sheet, spelling: &[u8]) -> Result<TermNumber, Refusal>
        ensures step { NamesUnder self.old.number (shown sheet.now) (S.TripleStore.side_of self.old.store) spelling.now self.old.ledger (record { answer = result; after = self.new.ledger }) }
        ensures store { (self.new.store ≡ self.old.store) × (self.new.state ≡ self.old.state) }
        ensures same { (self.new.regime ≡ self.old.regime) × (self.new.number ≡ self.old.number) }
    {
        if self.refuses(sheet) {
            return Err(Refusal::NoSheet);
        }
        let side = self.store.side();
        self.ledger.name(spelling, side)
    }

    // A new blank.
    pub fn blank(&mut self, sheet: &Sheet) -> Result<TermNumber, Refusal>
        ensures step { record { answer = result; after = self.new.ledger } ≡ under self.old.number (shown sheet.now) (blank_step (S.TripleStore.side_of self.old.store)) self.old.ledger }
        ensures store { (self.new.store ≡ self.old.store) × (self.new.state ≡ self.old.state) }
        ensures same { (self.new.regime ≡ self.old.regime) × (self.new.number ≡ self.old.number) }
    {
        if self.refuses(sheet) {
            return Err(Refusal::NoSheet);
        }
        let side = self.store.side();
        self.ledger.blank(side)
    }

    // Enters a triple, unless the ledger has it.
    pub fn enter(&mut self, sheet: &Sheet, triple: Triple) -> Result<Added, Refusal>
        ensures step { record { answer = result; after = self.new.ledger } ≡ under self.old.number (shown sheet.now) (enter_step triple) self.old.ledger }
        ensures store { (self.new.store ≡ self.old.store) × (self.new.state ≡ self.old.state) }
        ensures same { (self.new.regime ≡ self.old.regime) × (self.new.number ≡ self.old.number) }
    {
        if self.refuses(sheet) {
            return Err(Refusal::NoSheet);
        }
        self.ledger.enter(triple)
    }

    // Keeps what was entered under the sheet. A refusal hands the sheet back.
    pub fn keep(&mut self, sheet: Sheet) -> Result<(), (Refusal, Sheet)>
        ensures step { record { answer = answered result; after = self.new.ledger } ≡ under self.old.number (shown sheet) keep_step self.old.ledger }
        ensures back { IfErr result (λ e. e.1 ≡ sheet) }
        ensures store { (self.new.store ≡ self.old.store) × (self.new.state ≡ self.old.state) }
        ensures same { (self.new.regime ≡ self.old.regime) × (self.new.number ≡ self.old.number) }
    {
        if self.refuses(&sheet) {
            return Err((Refusal::NoSheet, sheet));
        }
        match self.ledger.keep() {
            Ok(()) => {
                let Sheet { book: _ } = sheet;
                Ok(())
            }
            Err(refusal) => Err((refusal, sheet)),
        }
    }

    // Takes out what was entered under the sheet. A refusal hands the sheet back.
    pub fn strike(&mut self, sheet: Sheet) -> Result<(), (Refusal, Sheet)>
        ensures step { record { answer = answered result; after = self.new.ledger } ≡ under self.old.number (shown sheet) strike_step self.old.ledger }
        ensures back { IfErr result (λ e. e.1 ≡ sheet) }
        ensures store { (self.new.store ≡ self.old.store) × (self.new.state ≡ self.old.state) }
        ensures same { (self.new.regime ≡ self.old.regime) × (self.new.number ≡ self.old.number) }
    {
        if self.refuses(&sheet) {
            return Err((Refusal::NoSheet, sheet));
        }
        let Sheet { book: _ } = sheet;
        self.ledger.strike();
        Ok(())
    }

    // Closes, where the kinds of the terms after the thirty are given.
    fn close_over(&mut self, kinds: &[TermKind]) -> Result<usize, Refusal>
        requires { map kind self.old.ledger.more ≡ kinds.now }
        ensures closes { Closes self.old.regime self.old.ledger (S.TripleStore.capacity_of self.old.store) (record { set = S.TripleStore.held self.old.store; state = self.old.state }) (record { set = S.TripleStore.held self.new.store; state = self.new.state }) result }
        ensures ledger { self.new.ledger ≡ self.old.ledger }
        ensures nothing { is_open self.old.ledger ≡ true → self.new.store ≡ self.old.store }
        ensures side { S.TripleStore.side_of self.new.store ≡ S.TripleStore.side_of self.old.store }
        ensures capacity { S.TripleStore.capacity_of self.new.store ≡ S.TripleStore.capacity_of self.old.store }
        ensures same { (self.new.regime ≡ self.old.regime) × (self.new.number ≡ self.old.number) }
    {
        if self.ledger.is_open() {
            return Err(Refusal::StillOpen);
        }
        self.state = State::Unclosed;
        let regime = self.regime;
        let Ok(size) = fill(&mut self.store, regime, &self.ledger, kinds) else {
            return Err(Refusal::Capacity);
        };
        self.state = State::Closed;
        Ok(size)
    }

    // Clears the store and fills it with the closure of the kept triples, and tells the closure's size.
    pub fn close(&mut self) -> Result<usize, Refusal>
        ensures closes { Closes self.old.regime self.old.ledger (S.TripleStore.capacity_of self.old.store) (record { set = S.TripleStore.held self.old.store; state = self.old.state }) (record { set = S.TripleStore.held self.new.store; state = self.new.state }) result }
        ensures ledger { self.new.ledger ≡ self.old.ledger }
        ensures nothing { is_open self.old.ledger ≡ true → self.new.store ≡ self.old.store }
        ensures side { S.TripleStore.side_of self.new.store ≡ S.TripleStore.side_of self.old.store }
        ensures capacity { S.TripleStore.capacity_of self.new.store ≡ S.TripleStore.capacity_of self.old.store }
        ensures same { (self.new.regime ≡ self.old.regime) × (self.new.number ≡ self.old.number) }
    {
        let kinds = self.ledger.kinds();
        self.close_over(kinds.as_slice())
    }
}

// Filling the store of a book.
ghost use Rattle.std.specs.Prelude.{◌≡◌, ◌≤◌, length, map};
ghost use Rattle.closing.specs.Kinds.{kind};
ghost use Rattle.ledger.specs.Ledger.{terms};
ghost use Rattle.book.specs.Filling.{Fill};

use closing::closing::close;
use closing::kinds::TermKind;
use closing::refusal::Refusal;
use entailment::regime::Regime;
use register::Register;
use triples::store::TripleStore;

// The closure has more triples than the capacity of the store.
#[derive(Clone, Copy, PartialEq, Eq, Debug)]
pub(crate) struct NoRoom;

// Fills the store with the closure of the ledger's triples over its terms, whose kinds are given, and tells the closure's size.
// Without room the store is left empty.
pub(crate) fn fill<S: TripleStore>(
    store: &mut S,
    regime: Regime,
    ledger: &Register,
    kinds: &[TermKind],
) -> Result<usize, NoRoom>
    requires fits { length (terms ledger.now) ≤ S.TripleStore.side_of store.old }
    requires kinds { map kind ledger.now.more ≡ kinds.now }
    ensures side { S.TripleStore.side_of store.new ≡ S.TripleStore.side_of store.old }
    ensures capacity { S.TripleStore.capacity_of store.new ≡ S.TripleStore.capacity_of store.old }
    ensures fills { Fill regime ledger.now (S.TripleStore.capacity_of store.old) (S.TripleStore.held store.new) result }
{
    ledger.sound();
    match close(store, regime, kinds, ledger.triples()) {
        Ok(size) => Ok(size),
        Err(Refusal::Full) => Err(NoRoom),
        Err(Refusal::Outside) => unreachable!(),
    }
}

// The question whether a goal embeds in a store.
ghost use Rattle.std.specs.Prelude.{◌≡◌, length, OnErr};
ghost use Rattle.embedding.specs.Deciding.{number, Answers};

use crate::kind::{GOAL_BLANKS, Kind, goal_allowed};
use crate::search::{Choice, Verdict, search};
use entailment::goal::GoalRow;
use triples::store::TripleStore;
use triples::triple::TermNumber;

// The most rows of a goal.
pub const MOST_ROWS: usize = 32;

// Why a goal is not decided: it has too many rows, a row has a position that a goal may not have, or the memory handed in is
// too little.
#[derive(Clone, Copy, PartialEq, Eq, Debug)]
pub enum Refusal {
    Rows,
    Position,
    Memory,
}

impl Refusal {
    // The refusal number.
    pub fn number(self) -> u8
        ensures { result ≡ number self }
    {
        match self {
            Refusal::Rows => 24,
            Refusal::Position => 25,
            Refusal::Memory => 26,
        }
    }
}

// Whether some map of goal blanks to terms puts every row into the store; if so, its terms are written into the first eight
// bytes of `map`, 0 for a goal blank that is not in the goal. `kinds` tells the kinds of the terms. `choices` and `blanks` are
// memory to work in; what they hold after a verdict is open.
pub fn embeds<S: TripleStore>(
    store: &S,
    kinds: &[Kind],
    goal: &[GoalRow],
    choices: &mut [Choice],
    blanks: &mut [u8],
    map: &mut [TermNumber],
) -> Result<Verdict, Refusal>
    ensures answers { Answers (S.TripleStore.side_of store.now) (S.TripleStore.held store.now) kinds.now goal.now (length choices.old) (length blanks.old) map.old map.new result }
    ensures refused { OnErr result ((choices.new ≡ choices.old) × (blanks.new ≡ blanks.old) × (map.new ≡ map.old)) }
{
    if goal.len() > MOST_ROWS {
        return Err(Refusal::Rows);
    }
    if !goal_allowed(goal, kinds) {
        return Err(Refusal::Position);
    }
    let least = usize::from(GOAL_BLANKS);
    if choices.len() < goal.len() || blanks.len() < least || map.len() < least {
        return Err(Refusal::Memory);
    }
    Ok(search(store, goal, choices, blanks, map))
}

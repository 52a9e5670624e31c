// The search for an embedding: a row is made one triple after another that fits it, and then the next row, until every row is
// a triple of the store. The row with the fewest goal blanks that are not bound is next.
ghost use Rattle.std.specs.Prelude.{◌≡◌, ◌<◌, ◌≤◌, [], length};
ghost use Rattle.std.specs.List.{AllByRecursion};
ghost use Rattle.stacks.specs.Piles.{pile};
ghost use Rattle.triples.specs.Questions.{Next};
ghost use Rattle.walks.specs.Steps.{past};
ghost use Rattle.embedding.specs.Bound.{SmallRow, lowest, pattern as pattern_of};
ghost use Rattle.embedding.specs.Deciding.{Decided};
ghost use Rattle.embedding.specs.Searching.{row_at, Hopeful, Advances, Places, Keeps, Sought, Written};

use crate::bindings::Bindings;
use crate::kind::GOAL_BLANKS;
use crate::prospects::{is_hopeful, is_parted, open_row, try_triple};
use crate::rows::{pass_over, pattern};
use entailment::goal::GoalRow;
use stacks::Stack;
use triples::store::TripleStore;
use triples::triple::{TermNumber, Triple};
use walks::step::{after, first};

// Whether the goal embeds.
#[derive(Clone, Copy, PartialEq, Eq, Debug)]
pub enum Verdict {
    Yes,
    No,
}

// A triple that a row was made, and how many goal blanks were bound before.
#[derive(Clone, Copy, PartialEq, Eq, Debug)]
pub struct Choice {
    row: usize,
    triple: Triple,
    mark: usize,
}

impl Choice {
    // What memory for choices can begin with.
    pub const UNUSED: Choice = Choice {
        row: 0,
        triple: Triple {
            subject: 0,
            predicate: 0,
            object: 0,
        },
        mark: 0,
    };
}

// A row and the triple to try for it; none where every triple was tried.
#[derive(Clone, Copy)]
struct Place {
    row: usize,
    candidate: Option<Triple>,
}

// The row that is next; none where every row is a triple of the store.
fn next_place<S: TripleStore>(store: &S, goal: &[GoalRow], bindings: &Bindings) -> Option<Place>
    ensures { Places (S.TripleStore.held store.now) goal.now bindings.now result }
{
    let row = open_row(goal, bindings)?;
    Some(Place {
        row,
        candidate: first(store, pattern(goal[row], bindings)),
    })
}

// Puts a choice on top. Where the rows part, takes all off instead: the rows that are still open have no goal blank in common
// with the others, so another choice for those would change nothing.
fn keep(choice: Choice, goal: &[GoalRow], bindings: &Bindings, choices: &mut Stack<Choice>)
    requires { length (pile choices.old.len choices.old.slots.now) < length choices.old.slots.now }
    ensures room { length choices.new.slots.now ≡ length choices.old.slots.now }
    ensures keeps { Keeps goal.now bindings.now choice (pile choices.old.len choices.old.slots.now) (pile choices.new.len choices.new.slots.now) }
{
    if is_parted(goal, bindings) {
        choices.clear();
        return;
    }
    match choices.push(choice) {
        Ok(()) => {}
        Err(_) => unreachable!(),
    }
}

// The row of a choice again, with the next triple for it, under the bindings that there were before.
fn take_back<S: TripleStore>(
    store: &S,
    goal: &[GoalRow],
    choice: Choice,
    bindings: &mut Bindings,
) -> Place
    requires { choice.row < length goal.now }
    ensures bindings { bindings.new ≡ lowest choice.mark bindings.old }
    ensures row { result.row ≡ choice.row }
    ensures candidate { Next (S.TripleStore.held store.now) (past choice.triple (pattern_of bindings.new (row_at goal.now choice.row))) result.candidate }
{
    bindings.truncate(choice.mark);
    Place {
        row: choice.row,
        candidate: after(store, pattern(goal[choice.row], bindings), choice.triple),
    }
}

// Makes the row its candidate and goes on to the next row, or to the next triple for the row.
fn advance<S: TripleStore>(
    store: &S,
    goal: &[GoalRow],
    row: usize,
    triple: Triple,
    bindings: &mut Bindings,
    choices: &mut Stack<Choice>,
) -> Option<Place>
    requires small { AllByRecursion SmallRow goal.now }
    requires row { row < length goal.now }
    requires hopeful { Hopeful (S.TripleStore.held store.now) goal.now bindings.old }
    requires room { length (pile choices.old.len choices.old.slots.now) < length choices.old.slots.now }
    ensures room { length choices.new.slots.now ≡ length choices.old.slots.now }
    ensures advances { Advances (S.TripleStore.held store.now) goal.now row triple bindings.old (pile choices.old.len choices.old.slots.now) bindings.new (pile choices.new.len choices.new.slots.now) result }
{
    let mark = bindings.len();
    if !try_triple(store, goal, goal[row], triple, bindings) {
        let passed = pass_over(goal[row], triple);
        let candidate = after(store, pattern(goal[row], bindings), passed);
        return Some(Place { row, candidate });
    }
    keep(Choice { row, triple, mark }, goal, bindings, choices);
    next_place(store, goal, bindings)
}

// Binds the goal blanks so that every row is a triple of the store, if that can be. The last choice is taken back where no
// triple is left for a row.
fn seek<S: TripleStore>(
    store: &S,
    goal: &[GoalRow],
    bindings: &mut Bindings,
    choices: &mut Stack<Choice>,
) -> bool
    requires small { AllByRecursion SmallRow goal.now }
    requires room { length goal.now ≤ length choices.old.slots.now }
    requires none { (bindings.old ≡ []) × (pile choices.old.len choices.old.slots.now ≡ []) }
    ensures { Sought (S.TripleStore.side_of store.now) (S.TripleStore.held store.now) goal.now bindings.new result }
{
    if !is_hopeful(store, goal, bindings) {
        return false;
    }
    let mut place = next_place(store, goal, bindings);
    while let Some(Place { row, candidate }) = place {
        place = match candidate {
            Some(triple) => advance(store, goal, row, triple, bindings, choices),
            None => match choices.pop() {
                Some(choice) => Some(take_back(store, goal, choice, bindings)),
                #[tactic(auto, using(crate::proofs::Seeking::turn_out))]
                None => return false,
            },
        };
    }
    true
}

// Writes the terms of the goal blanks that are bound, and 0 for the others.
fn write(bindings: &Bindings, map: &mut [TermNumber])
    requires { 8 ≤ length map.old }
    ensures { Written bindings.now 8 map.old map.new }
{
    for blank in 0..GOAL_BLANKS {
        map[usize::from(blank)] = bindings.get(blank).unwrap_or(0);
    }
}

// Whether the goal embeds; if so, the map is written.
pub(crate) fn search<S: TripleStore>(
    store: &S,
    goal: &[GoalRow],
    choices: &mut [Choice],
    blanks: &mut [u8],
    map: &mut [TermNumber],
) -> Verdict
    requires small { AllByRecursion SmallRow goal.now }
    requires choices { length goal.now ≤ length choices.old }
    requires blanks { 8 ≤ length blanks.old }
    requires map { 8 ≤ length map.old }
    ensures { Decided (S.TripleStore.side_of store.now) (S.TripleStore.held store.now) goal.now map.old map.new result }
{
    let mut bindings = Bindings::new(blanks);
    let mut kept = Stack::new(choices);
    if seek(store, goal, &mut bindings, &mut kept) {
        write(&bindings, map);
        Verdict::Yes
    } else {
        Verdict::No
    }
}

// Checks a sheet of N-Triples: a verdict on each of its lines, as the grammar and the limit on spellings have it, and
// a survey that counts the verdicts and tells where each line that cannot be read goes wrong. It prints nothing
// itself; the program `ntcheck` does that.

#![tactic(auto)]

pub mod finding;
pub mod survey;
pub mod tally;
#[cfg(test)]
mod tests;
pub mod verdict;

// Questions to an accepted sheet, each settled by a bisection over the stored first bytes of its lines.
#![tactic(auto)]

pub mod answers;
pub mod asked;
pub mod begins;
pub mod lexicon;
pub mod lines;
pub mod names;
pub mod search;
pub mod starts;

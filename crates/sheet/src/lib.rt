// The sheet of the lexicon's answers: its forms, its lines and their order, and whether it is accepted, alone or with a word.
#![tactic(auto)]

pub mod check;
pub mod form;
mod keys;
pub mod letters;
pub mod limits;
pub mod line;
pub mod name;
pub mod walk;

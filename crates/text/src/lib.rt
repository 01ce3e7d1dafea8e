// UTF-8 text: what is UTF-8, how many characters it has, and which words are accepted.
#![tactic(auto)]

pub mod characters;
pub mod names;
pub mod utf8;
pub mod word;

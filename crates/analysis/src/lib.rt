// Readings of a word: what the strip rules allow and the sheet supports.
#![tactic(auto)]

pub mod entry;
pub mod fronts;
pub mod origins;
mod piece;
pub mod prefixes;
pub mod roots;
mod stripped;
pub mod suffixes;
pub mod support;

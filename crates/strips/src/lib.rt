// What is left of a piece once a suffix or a prefix is stripped. Nothing is copied: a remainder is a part of the piece, said by a
// length or by a first byte.
#![tactic(auto)]

pub mod prefix;
pub mod suffix;

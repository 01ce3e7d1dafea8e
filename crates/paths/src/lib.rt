// Paths of a word and their readings, said without a search, and the order in which a walk finds them: definitions and theorems.
// The items of code are what the walk carries, and how many rows and strips there are.
#![tactic(auto)]

use ranking::Segment;

// The rows of suffix texts and of prefix forms, and how many of each a path strips at most.
pub const ROWS: u8 = 25;

pub const FORMS: u8 = 30;

pub const STRIPS: u8 = 4;

// The suffixes stripped so far: nearest the stem first, places that are not used are blank.
#[derive(Clone, Copy, Default)]
pub struct Chain {
    pub segments: [Segment; 4],
    pub count: u8,
}

// The prefix rows stripped so far: outermost first, places that are not used are 0.
#[derive(Clone, Copy, Default)]
pub struct Prefixes {
    pub rows: [u8; 2],
    pub count: u8,
}

// The limits of a sheet. What other limits are made of stands here; `specs/Limits` has the same numbers, and the proofs hold the two
// together.

// The most bytes of a sheet.
pub const SHEET_BYTES: usize = 65536;

// The fewest bytes of a line, with its 0A: a name and a value of one byte each.
pub const SHORTEST_LINE: usize = 10;

// The most bytes of a name.
pub const NAME_BYTES: usize = 210;

// The most lines of an accepted sheet, and the room that a list for the starts of any sheet's lines has: for one more.
pub const MOST_LINES: usize = SHEET_BYTES / SHORTEST_LINE;

pub const ALL_STARTS: usize = MOST_LINES + 1;

// A small sheet's bytes at most, and the room for the starts of its lines: a list for any sheet takes longer to clear.
pub const SMALL_BYTES: usize = 4096;

pub const FEW_STARTS: usize = SMALL_BYTES / SHORTEST_LINE + 1;

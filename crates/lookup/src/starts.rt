// The first byte of every line of a sheet, stored as numbers of 16 bits by `lines::check_lines`. Every search goes by this list.

// A line's first byte, as it is stored. Every place in a sheet of at most 65,536 bytes fits.
pub type Start = u16;

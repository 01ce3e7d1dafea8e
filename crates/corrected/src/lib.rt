// Corrections of a sheet (document 02 (c)): a given line is put into the sheet in a lent buffer, or the line that has the given line's first
// letter and name is withdrawn, in place.
#![tactic(auto)]

pub mod entry;
mod place;
mod splice;

// Rescue of a torn sheet (document 02 (m)): each line that is a form and stands above the last kept one is kept, all else is dropped, and
// every dropped stretch is reported.
#![tactic(auto)]

pub mod entry;
pub mod part;
mod walk;

// Progressive forms: participles in रहेको, रहेकी and रहेका, with the verb that they are made from.
// `find` asks a sheet that is already accepted and indexed; `entry` tests its own inputs.
#![tactic(auto)]

pub mod entry;
pub mod find;

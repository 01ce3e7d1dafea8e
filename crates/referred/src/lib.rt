// What the lines of a sheet refer to (document 02 (k)): a link's infinitive is to have a `w` line with v, a kind line's suffix is to be one
// of the 25 texts. What does not hold is found, and reported.
#![tactic(auto)]

ghost use Rattle.std.specs.Prelude.{◌≡◌};
ghost use Rattle.referred.specs.Codes.{code_of};

pub mod entry;
mod faults;
mod lines;
pub mod whole;

use lookup::starts::Start;

// What is wrong with what a line refers to: a link whose infinitive has no `w` line, or one without v; a suffix that is none of the 25
// texts.
#[derive(Clone, Copy)]
pub enum Fault {
    Missing,
    NotVerb,
    Unused,
}

// A line whose reference does not hold: its first byte, and what is wrong.
#[derive(Clone, Copy)]
pub(crate) struct Finding {
    pub line: Start,
    pub fault: Fault,
}

impl Finding {
    // What is stored of it: the fault's number in the lowest byte, above it the line's first byte.
    pub(crate) fn code(self) -> u32
        ensures { result ≡ code_of self }
    {
        let place = u32::from(self.line) * 256;
        match self.fault {
            Fault::Missing => place + 1,
            Fault::NotVerb => place + 2,
            Fault::Unused => place + 3,
        }
    }
}

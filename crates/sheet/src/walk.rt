// The walk over a sheet's lines: one step from line to line that says at once whether a form stands there and whether it is above the
// last. The check of a sheet is a loop over it, with the starts stored or without.
ghost use Rattle.std.specs.Prelude.{◌≡◌};
ghost use Rattle.runs.specs.Runs.{cmp, is_less};
ghost use Rattle.sheet.specs.Forms.{key_of};
ghost use Rattle.sheet.specs.Walks.{key_before, Standing, reached};

use crate::form::FormAt;
use crate::line::{Cursor, Form, LineFault};
use std::cmp::Ordering;

// A place in the sheet at which a line begins, and the last line that the next one must be above.
#[derive(Clone, Copy)]
pub struct Walk {
    pub at: usize,
    pub last: Option<usize>,
}

// Whether the line before, if there is one, stands below the key of this letter and name.
fn is_above(s: &[u8], last: Option<usize>, letter: u8, name: &[u8]) -> bool
    requires { Standing s.now last }
    ensures { result ≡ is_less (cmp (key_before s.now last) (key_of letter name.now)) }
{
    let Some(at) = last else {
        return true;
    };
    FormAt { sheet: s, at }.order(letter, name, b"").is_lt()
}

impl Walk {
    // The form at which the walk stands, with the walk from behind it, none at the sheet's end; or why the line is refused. A form stands at
    // the last.
    pub fn step(self, s: &[u8]) -> Result<Option<Form<Walk>>, LineFault>
        requires { Standing s.now self.last }
        ensures { result ≡ reached s.now self }
    {
        let at = self.at;
        let Some(form) = (Cursor { at }).step(s)? else {
            return Ok(None);
        };
        let from = at + 3;
        if !is_above(s, self.last, form.letter, &s[from..form.name_end]) {
            return Err(LineFault::NotAbove);
        }
        Ok(Some(Form {
            letter: form.letter,
            name_end: form.name_end,
            value_end: form.value_end,
            next: Walk {
                at: form.next.at,
                last: Some(at),
            },
        }))
    }
}

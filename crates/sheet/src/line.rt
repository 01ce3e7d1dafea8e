// The reader of the sheet: from line to line, its place going in and coming back.
ghost use Rattle.std.specs.Prelude.{◌≡◌, false, ◌||◌};
ghost use Rattle.runs.specs.Runs.{ends_in};
ghost use Rattle.text.specs.Names.{holds_forbidden};
ghost use Rattle.sheet.specs.Forms.{sign_i, letter_i, syllable_nu, is_kind, is_meant};
ghost use Rattle.sheet.specs.Steps.{head_of, form_there, step_at};

use crate::letters::are_letters;
use crate::name::{is_name, read_name, run_len};
use runs::{begins_with, ends_with, same};

// The first letter of the form whose head stands at the front of t, if one does.
#[tactic(auto, using(crate::proofs::Shape::head_by, std::proofs::lemmas::Bool::Decides::nat_tests))]
fn head_at(t: &[u8]) -> Option<u8>
    ensures { result ≡ head_of t.now }
{
    match *t {
        [b'(', letter @ (b'w' | b'l' | b'k'), b' ', ..] => Some(letter),
        _ => None,
    }
}

// Whether a value is a kind: `post` or `comp`.
#[tactic(auto, unfolding(crate::specs::Forms::is_kind))]
fn is_kind(value: &[u8]) -> bool
    ensures { result ≡ is_kind value.now }
{
    same(value, b"post") || same(value, b"comp")
}

// Whether a name may be a link: it ends in ि or इ.
fn is_link(name: &[u8]) -> bool
    ensures { result ≡ (ends_in sign_i name.now || ends_in letter_i name.now) }
{
    ends_with(name, b"\xE0\xA4\xBF") || ends_with(name, b"\xE0\xA4\x87")
}

// Whether the value, a run that holds no forbidden byte, is what the first letter asks for. It is a part of the reader, as `are_letters` is.
#[inline(always)]
#[tactic(auto, unfolding(crate::specs::Forms::is_meant))]
fn is_meant(letter: u8, name: &[u8], value: &[u8]) -> bool
    requires { holds_forbidden value.now ≡ false }
    ensures { result ≡ is_meant (record { letter = letter; name = name.now; value = value.now }) }
{
    match letter {
        b'k' => is_kind(value),
        b'l' => { is_link(name) && is_name(value) && ends_with(value, b"\xE0\xA4\xA8\xE0\xA5\x81") }
        b'w' => are_letters(value),
        _ => false,
    }
}

// A place in the sheet at which a line begins.
#[derive(Clone, Copy)]
pub struct Cursor {
    pub at: usize,
}

// A form that was read: its first letter (k, l or w), the ends of its first name and of its value, and the place P of the next line.
#[derive(Clone, Copy)]
pub struct Form<P> {
    pub letter: u8,
    pub name_end: usize,
    pub value_end: usize,
    pub next: P,
}

// Why a line is refused: no form, or a form not above the one before.
#[derive(Clone, Copy, Debug, PartialEq, Eq)]
pub enum LineFault {
    NoForm,
    NotAbove,
}

impl Cursor {
    // The form that begins at the cursor, none where no form stands there, as at the sheet's end.
    fn form(self, s: &[u8]) -> Option<Form<Cursor>>
        ensures { result ≡ form_there s.now self.at }
    {
        let at = self.at;
        if s.len() <= at {
            return None;
        }
        let letter = head_at(&s[at..])?;
        let from = at + 3;
        let name_len = read_name(&s[from..])?;
        let name_end = from + name_len;
        if !begins_with(&s[name_end..], b" (") {
            return None;
        }
        let value_from = name_end + 2;
        let value_end = value_from + run_len(&s[value_from..]);
        if !begins_with(&s[value_end..], b"))\n") {
            return None;
        }
        if !is_meant(letter, &s[from..name_end], &s[value_from..value_end]) {
            return None;
        }
        let end = value_end + 3;
        Some(Form {
            letter,
            name_end,
            value_end,
            next: Cursor { at: end },
        })
    }

    // The form that begins at the cursor, none at the sheet's end; or that the line is no form.
    pub fn step(self, s: &[u8]) -> Result<Option<Form<Cursor>>, LineFault>
        ensures { result ≡ step_at s.now self.at }
    {
        if s.len() <= self.at {
            return Ok(None);
        }
        let form = self.form(s).ok_or(LineFault::NoForm)?;
        Ok(Some(form))
    }
}

// Names of the sheet: SUFFIX, LINK, INFINITIVE and NAME of document 01.
ghost use Rattle.std.specs.Prelude.{◌≡◌, true, false, ◌&&◌, ltb, leb};
ghost use Rattle.text.specs.Utf8.{whole};
ghost use Rattle.text.specs.Owes.{owed_of};
ghost use Rattle.text.specs.Names.{name_run, holds_forbidden};
ghost use Rattle.sheet.specs.Limits.{name_limit};
ghost use Rattle.sheet.specs.Forms.{is_name};
ghost use Rattle.sheet.specs.Passing.{Passed};
ghost use Rattle.sheet.specs.Steps.{name_read};

use crate::limits::NAME_BYTES;
use text::names::is_forbidden;
use text::utf8::{State, is_utf8, is_whole, next};

// Whether so many bytes, read up to this state, are a name: 1 to 210 of them, whole UTF-8.
fn named(len: usize, state: State) -> bool
    ensures { result ≡ (ltb 0 len && leb len name_limit && whole (owed_of state)) }
{
    0 < len && len <= NAME_BYTES && is_whole(state)
}

// Whether a run that holds no forbidden byte is a name.
#[tactic(auto, unfolding(crate::specs::Forms::is_name))]
pub(crate) fn is_name(run: &[u8]) -> bool
    requires { holds_forbidden run.now ≡ false }
    ensures { result ≡ is_name run.now }
{
    !run.is_empty() && run.len() <= NAME_BYTES && is_utf8(run)
}

// How long the run of bytes that a name may hold is at the front of t.
pub(crate) fn run_len(t: &[u8]) -> usize
    ensures { result ≡ name_run t.now }
{
    t.iter().position(|b| is_forbidden(*b)).unwrap_or(t.len())
}

// The place after the run of characters of three bytes whose first is E0, as every letter of Devanagari is, at the front of t. It saves
// their states: most names are such a run.
fn skip_threes(t: &[u8]) -> usize
    ensures { Passed t.now result }
{
    let mut rest = t;
    while let [0xE0, 0xA0..=0xBF, 0x80..=0xBF, tail @ ..] = rest {
        rest = tail;
    }
    t.len() - rest.len()
}

// How long the name at the front of t is, none where the bytes up to the first one that no name holds are no name.
pub(crate) fn read_name(t: &[u8]) -> Option<usize>
    ensures { result ≡ name_read t.now }
{
    let mut state = State::Nothing;
    for i in skip_threes(t)..t.len() {
        let b = t[i];
        if is_forbidden(b) {
            return named(i, state).then_some(i);
        }
        state = next(state, b);
    }
    named(t.len(), state).then_some(t.len())
}

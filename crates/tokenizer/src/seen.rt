// The character that stands at the front of a text.
ghost use Rattle.std.specs.Prelude.{◌≡◌, ◌-◌, ◌≤◌, ◌<◌, length, IfSome};
ghost use Rattle.tokenizer.specs.Scalars.{scalar};
ghost use Rattle.tokenizer.specs.Looked.{sized, seen};

use crate::parting::{ascii_parts, is_devanagari, is_parting};
use text::utf8::{State, is_whole, next};

// How many bytes a character has; whether it parts; whether it is one of U+0900 to U+097F.
#[derive(Clone, Copy)]
pub(crate) struct Seen {
    pub(crate) size: usize,
    pub(crate) parting: bool,
    pub(crate) deva: bool,
}

// How many bytes the character at the front of s has, where one stands there.
#[tactic(auto, using(crate::proofs::Looks::size_start, crate::proofs::Looks::size_goes, crate::proofs::Looks::size_some, crate::proofs::Looks::size_none))]
fn size_of(s: &[u8]) -> Option<usize>
    ensures value { result ≡ sized s.now }
    ensures bound { IfSome result (λ n. (0 < n) × (n ≤ length s.now)) }
{
    let mut state = State::Nothing;
    for (k, b) in s.iter().enumerate() {
        state = next(state, *b);
        if is_whole(state) {
            return Some(k + 1);
        }
    }
    None
}

// The number of a character, from the bits that its bytes hold.
#[tactic(auto, unfolding(crate::specs::Scalars::scalar))]
fn number_of(character: &[u8]) -> u32
    ensures { result ≡ scalar character.now }
{
    match *character {
        [a] => a as u32,
        [a, b] => over(a, 0xC0) * 64 + over(b, 0x80),
        [a, b, c] => over(a, 0xE0) * 4096 + over(b, 0x80) * 64 + over(c, 0x80),
        [a, b, c, d] => {
            over(a, 0xF0) * 262144 + over(b, 0x80) * 4096 + over(c, 0x80) * 64 + over(d, 0x80)
        }
        _ => 0,
    }
}

// What b holds above `low`.
fn over(b: u8, low: u8) -> u32
    ensures { (result ≡ b - low) × (result < 256) }
{
    b.saturating_sub(low) as u32
}

// The character at the front of s, whichever it is.
#[tactic(auto, using(crate::proofs::Looks::looked, crate::proofs::Looks::unlooked))]
fn look_wide(s: &[u8]) -> Option<Seen>
    ensures value { result ≡ seen s.now }
    ensures bound { IfSome result (λ c. (0 < c.size) × (c.size ≤ length s.now)) }
{
    let size = size_of(s)?;
    let c = number_of(&s[..size]);
    Some(Seen {
        size,
        parting: is_parting(c),
        deva: is_devanagari(c),
    })
}

// The character at the front of s. Most are of three bytes, E0 and then A4 or A5, or of one.
#[tactic(auto, using(crate::proofs::Looks::look_three, crate::proofs::Looks::look_ascii))]
pub(crate) fn look(s: &[u8]) -> Option<Seen>
    ensures value { result ≡ seen s.now }
    ensures bound { IfSome result (λ c. (0 < c.size) × (c.size ≤ length s.now)) }
{
    match *s {
        [0xE0, b @ 0xA4..=0xA5, c @ 0x80..=0xBF, ..] => Some(Seen {
            size: 3,
            parting: b == 0xA5 && c == 0xA4,
            deva: true,
        }),
        [a @ 0x00..=0x7F, ..] => Some(Seen {
            size: 1,
            parting: ascii_parts(a),
            deva: false,
        }),
        _ => look_wide(s),
    }
}

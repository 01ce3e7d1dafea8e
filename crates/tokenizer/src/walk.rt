// The pass over a text.
ghost use Rattle.std.specs.Prelude.{◌≡◌, ◌+◌, ◌≤◌, length, IfSome, IfOk};
ghost use Rattle.tokenizer.specs.Scanned.{tokens_of};
ghost use Rattle.tokenizer.specs.Answers.{text_limit};
ghost use Rattle.tokenizer.specs.Stored.{counted, stored, passed, pass_of, Ended};

use crate::seen::look;
use refusals::Refusal;

// How many tokens there are after a run from `start` up to `end`, which is stored where it is held and there is room.
fn end_run(list: &mut [u32], count: usize, start: usize, end: usize, held: bool) -> usize
    requires { (count ≤ text_limit) × (start ≤ text_limit) × (end ≤ text_limit) }
    ensures { Ended list.old list.new count result held start end }
{
    if !held {
        return count;
    }
    let i = 2 * count;
    if i + 1 < list.len() {
        list[i] = start as u32;
        list[i + 1] = end as u32;
    }
    count + 1
}

// Walks the text character by character, and gives the number of tokens where the text is UTF-8. A run goes on from `start`; `held` says
// whether it has a character in U+0900 to U+097F.
pub(crate) fn walk(text: &[u8], list: &mut [u32]) -> Option<usize>
    requires { length text.now ≤ text_limit }
    ensures value { result ≡ counted text.now }
    ensures left { list.new ≡ stored list.old 0 (tokens_of text.now) }
    ensures bound { IfSome result (λ n. n ≤ length text.now + 1) }
{
    let mut at: usize = 0;
    let mut start: usize = 0;
    let mut held = false;
    let mut count: usize = 0;
    while at < text.len() {
        let seen = look(&text[at..])?;
        if seen.parting {
            count = end_run(list, count, start, at, held);
            at += seen.size;
            start = at;
            held = false;
        } else {
            held |= seen.deva;
            at += seen.size;
        }
    }
    Some(end_run(list, count, start, at, held))
}

// The same of any text: refused is one over 65,536 bytes (9), which is not walked, and one that is not UTF-8 (2).
pub(crate) fn pass(text: &[u8], list: &mut [u32]) -> Result<usize, Refusal>
    ensures value { result ≡ pass_of text.now }
    ensures left { list.new ≡ passed text.now list.old }
    ensures bound { IfOk result (λ n. n ≤ text_limit + 1) }
{
    if 65536 < text.len() {
        return Err(Refusal::TextTooLong);
    }
    walk(text, list).ok_or(Refusal::TextNotUtf8)
}

// UTF-8 as RFC 3629 has it, one byte at a time.
ghost use Rattle.std.specs.Prelude.{◌≡◌};
ghost use Rattle.runs.specs.Runs.{pick};
ghost use Rattle.text.specs.Utf8.{from_to, within, misfit, opened, utf8_char, after, whole, is_utf8};
ghost use Rattle.text.specs.Owes.{owed_of};

// What is still owed of the character that has begun. A named range is that of the next byte; every later one is 80 to BF.
#[derive(Clone, Copy, Debug, PartialEq, Eq)]
pub enum State {
    Nothing,
    One,
    Two,
    Three,
    TwoFromA0,
    TwoTo9F,
    ThreeFrom90,
    ThreeTo8F,
    Misfit,
}

// What a character owes whose first byte is b. Comparisons from below: a match on the rows of RFC 3629 makes the check of a sheet a tenth
// slower.
#[tactic(auto, unfolding(crate::specs::Utf8::opened, crate::specs::Utf8::utf8_char, crate::specs::Utf8::within))]
pub fn open(b: u8) -> State
    ensures { owed_of result ≡ opened utf8_char b }
{
    if b < 0x80 {
        return State::Nothing;
    }
    if b < 0xC2 {
        return State::Misfit;
    }
    if b < 0xE0 {
        return State::One;
    }
    if b == 0xE0 {
        return State::TwoFromA0;
    }
    if b < 0xED {
        return State::Two;
    }
    if b == 0xED {
        return State::TwoTo9F;
    }
    if b < 0xF0 {
        return State::Two;
    }
    if b == 0xF0 {
        return State::ThreeFrom90;
    }
    if b < 0xF4 {
        return State::Three;
    }
    if b == 0xF4 {
        return State::ThreeTo8F;
    }
    State::Misfit
}

// `then` where b lies from low to high.
#[tactic(auto, unfolding(crate::specs::Utf8::within))]
fn held(b: u8, low: u8, high: u8, then: State) -> State
    ensures { owed_of result ≡ pick (within (from_to low high) b) (owed_of then) misfit }
{
    if low <= b && b <= high {
        then
    } else {
        State::Misfit
    }
}

// What is owed after one more byte.
#[tactic(auto, unfolding(crate::specs::Utf8::after))]
pub fn next(state: State, b: u8) -> State
    ensures { owed_of result ≡ after (owed_of state) b }
{
    match state {
        State::Nothing => open(b),
        State::One => held(b, 0x80, 0xBF, State::Nothing),
        State::Two => held(b, 0x80, 0xBF, State::One),
        State::Three => held(b, 0x80, 0xBF, State::Two),
        State::TwoFromA0 => held(b, 0xA0, 0xBF, State::One),
        State::TwoTo9F => held(b, 0x80, 0x9F, State::One),
        State::ThreeFrom90 => held(b, 0x90, 0xBF, State::Two),
        State::ThreeTo8F => held(b, 0x80, 0x8F, State::Two),
        State::Misfit => State::Misfit,
    }
}

// Nothing is owed: the text ends where a character ends.
pub fn is_whole(state: State) -> bool
    ensures { result ≡ whole (owed_of state) }
{
    state == State::Nothing
}

// Whether s is UTF-8.
#[tactic(auto, unfolding(crate::specs::Utf8::is_utf8))]
pub fn is_utf8(s: &[u8]) -> bool
    ensures { result ≡ is_utf8 s.now }
{
    is_whole(s.iter().fold(State::Nothing, |state, b| next(state, *b)))
}

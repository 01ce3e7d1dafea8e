// Characters counted as Rust's `chars` counts them.
ghost use Rattle.std.specs.Prelude.{◌≡◌, ◌≤◌};
ghost use Rattle.text.specs.Characters.{opens, chars};

// 1 where a character begins with b, 0 where b goes on with one.
#[tactic(auto, unfolding(crate::specs::Characters::opens, crate::specs::Utf8::within))]
pub fn opens_one(b: u8) -> usize
    ensures { (result ≡ opens b) × (result ≤ 1) }
{
    if matches!(b, 0x80..=0xBF) { 0 } else { 1 }
}

// How many characters s has.
pub fn count(s: &[u8]) -> usize
    ensures { result ≡ chars s.now }
{
    s.iter().map(|b| opens_one(*b)).sum()
}

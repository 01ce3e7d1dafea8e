// The bytes that no word and no name of the sheet holds.
ghost use Rattle.std.specs.Prelude.{◌≡◌};
ghost use Rattle.text.specs.Names.{forbidden, holds_forbidden};

// Whether b is one of 00 to 20, 28, 29 and 7F.
#[tactic(auto, unfolding(crate::specs::Names::forbidden))]
pub fn is_forbidden(b: u8) -> bool
    ensures { result ≡ forbidden b }
{
    b <= 0x20 || b == 0x28 || b == 0x29 || b == 0x7F
}

// Whether s holds such a byte.
pub fn holds_forbidden(s: &[u8]) -> bool
    ensures { result ≡ holds_forbidden s.now }
{
    s.iter().any(|b| is_forbidden(*b))
}

// Which pieces a prefix form can begin. Every form begins with a character of three bytes; a piece with another third byte than any
// form has no prefix, and then no row need be compared.
ghost use Rattle.std.specs.Prelude.{◌≡◌};
ghost use Rattle.analysis.specs.Fronts.{opens_form, may_begin};

// Whether some prefix form has this third byte.
#[tactic(auto, unfolding(crate::specs::Fronts::opens_form))]
fn opens_form(b: u8) -> bool
    ensures { result ≡ opens_form b }
{
    matches!(b, 0x85 | 0x86 | 0x89 | 0xA6 | 0xA8 | 0xAA | 0xB5 | 0xB8)
}

// Whether a prefix form can begin the piece, by its third byte.
#[tactic(auto, unfolding(crate::specs::Fronts::may_begin))]
pub(crate) fn may_begin(piece: &[u8]) -> bool
    ensures { result ≡ may_begin piece.now }
{
    3 <= piece.len() && opens_form(piece[2])
}

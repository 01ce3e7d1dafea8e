// What a prefix form leaves of a piece. Readings, decompose and candidates all strip by `prefix_rest`.
// The form is a row of the prefix forms, or any other run.
ghost use Rattle.std.specs.Prelude.{◌≡◌};
ghost use Rattle.strips.specs.Prefix.{least_after, rest_of};

// How many characters a form must leave: 2, or 4 where the form is one character. It takes any run, an empty one too.
#[tactic(auto, unfolding(crate::specs::Prefix::least_after))]
pub fn least_after(form: &[u8]) -> usize
    ensures { result ≡ least_after form.now }
{
    if text::characters::count(form) == 1 {
        4
    } else {
        2
    }
}

// What the form leaves of the piece. A piece that does not begin with the form has no rest, nor one of which too little is left.
#[tactic(auto, unfolding(crate::specs::Prefix::rest_of, crate::specs::Prefix::leaves))]
pub fn prefix_rest(piece: &[u8], form: &[u8]) -> Option<usize>
    ensures { result ≡ rest_of piece.now form.now }
{
    if !runs::begins_with(piece, form) {
        return None;
    }
    let n = form.len();
    let left = text::characters::count(&piece[n..]);
    (least_after(form) <= left).then_some(n)
}

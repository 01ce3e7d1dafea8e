// The letters of a `w` line.
ghost use Rattle.std.specs.Prelude.{◌≡◌, ◌+◌, ◌≤◌, length, drop, ltb};
ghost use Rattle.sheet.specs.Letters.{has, past, tag_of, letters_of, is_known, closes, is_letters};

use tables::origins::Origin;

// What a `w` line says of its name.
#[derive(Clone, Copy, Debug, PartialEq, Eq)]
pub struct Letters {
    pub word: bool,
    pub head: bool,
    pub verb: bool,
    pub pronoun: bool,
    pub spelled: bool,
    pub tag: Option<Origin>,
}

impl Letters {
    // Whether the sheet knows the name, by w or by h.
    pub fn is_known(&self) -> bool
        ensures { result ≡ is_known self.now }
    {
        self.word || self.head
    }
}

// The place after the letter c where it stands at i, else i.
fn skip(v: &[u8], i: usize, c: u8) -> usize
    requires { i ≤ length v.now }
    ensures { (drop result v.now ≡ past c (drop i v.now)) × (ltb i result ≡ has c (drop i v.now)) × (i ≤ result) × (result ≤ length v.now) }
{
    if i < v.len() && v[i] == c { i + 1 } else { i }
}

// The tag whose letter stands at i, if one does.
fn tag_at(v: &[u8], i: usize) -> Option<Origin>
    ensures { result ≡ tag_of (drop i v.now) }
{
    if v.len() <= i {
        return None;
    }
    match v[i] {
        b't' => Some(Origin::Tatsam),
        b'b' => Some(Origin::Tadbhav),
        b'd' => Some(Origin::Deshaj),
        b'a' => Some(Origin::Aagantuk),
        _ => None,
    }
}

// The letters that v spells.
pub fn read_letters(v: &[u8]) -> Letters
    ensures { result ≡ letters_of v.now }
{
    let w = skip(v, 0, b'w');
    let h = skip(v, w, b'h');
    let r = skip(v, h, b'v');
    let p = skip(v, r, b'p');
    let e = skip(v, p, b'e');
    let tag = tag_at(v, e);
    Letters {
        word: 0 < w,
        head: w < h,
        verb: h < r,
        pronoun: r < p,
        spelled: p < e,
        tag,
    }
}

// Whether nothing is left of v from i on but a tag.
fn closes_at(v: &[u8], i: usize) -> bool
    requires { i ≤ length v.now }
    ensures { result ≡ closes (drop i v.now) }
{
    v.len() - i == usize::from(tag_at(v, i).is_some())
}

// Whether v is a good run of letters: each at most once and in its order, their needs met, nothing besides. Without h, w stands alone;
// without p there is no e. It is a part of the check of every line, which a call makes a tenth longer.
#[inline(always)]
pub fn are_letters(v: &[u8]) -> bool
    ensures { result ≡ is_letters v.now }
{
    let w = skip(v, 0, b'w');
    let h = skip(v, w, b'h');
    if h == w {
        return 0 < w && w == v.len();
    }
    let past_v = skip(v, h, b'v');
    let past_p = skip(v, past_v, b'p');
    let past_e = skip(v, past_p, b'e');
    let closed = closes_at(v, past_e);
    closed && (past_v < past_p || past_p == past_e)
}

// The search for a progressive form and its lemma in an accepted sheet.
// A question is asked in two parts, a part of the word and a fixed ending, so that nothing is joined.
ghost use Rattle.std.specs.Prelude.{◌≡◌, ◌||◌, ◌++◌, Some};
ghost use Rattle.runs.specs.Runs.{ends_in};
ghost use Rattle.lookup.specs.Answers.{text_at, SpotIn};
ghost use Rattle.lookup.specs.Lexicons.{replies};
ghost use Rattle.progressive.specs.Progressive.{sign_aa, letter_aa, is_verb, none, verb_or, regular, verb_told, lemma_of, is_shaped, is_progressive};
ghost use Rattle.progressive.specs.Found.{ends_in_rahek, LemmaAt, form_with, FormAt};

use lookup::answers::Spot;
use lookup::lexicon::Lexicon;
use runs::{begins_with, ends_with};

// A progressive form: the main form is the word up to byte `main_end`, its न with it, and the auxiliary is the rest; the lemma's
// name stands in its `w` line, `lemma_len` bytes from byte `lemma_at` of the sheet on.
#[derive(Clone, Copy)]
pub struct Progressive {
    pub main_end: usize,
    pub negative: bool,
    pub lemma_at: usize,
    pub lemma_len: usize,
}

// Whether the name that `p` and then `q` make is a verb.
fn is_verb(sheet: &Lexicon<'_>, p: &[u8], q: &[u8]) -> bool
    ensures { result ≡ is_verb (replies sheet.now) (p.now ++ q.now) }
{
    let letters = sheet.letters_of(p, q);
    letters.verb
}

// Where the name that `p` and then `q` make stands, if it is a verb. The place is sought only then: most names asked are none.
fn verb_at(sheet: &Lexicon<'_>, p: &[u8], q: &[u8]) -> Option<Spot>
    ensures { LemmaAt sheet.now.bytes.now (verb_or (replies sheet.now) (p.now ++ q.now) none) result }
{
    if !is_verb(sheet, p, q) {
        return None;
    }
    sheet.spot_of(p, q)
}

// Whether a stem ends in ा or आ.
fn ends_in_aa(stem: &[u8]) -> bool
    ensures { result ≡ (ends_in sign_aa stem.now || ends_in letter_aa stem.now) }
{
    ends_with(stem, b"\xE0\xA4\xBE") || ends_with(stem, b"\xE0\xA4\x86")
}

// The first verb among stem+नु, stem+्नु, stem+उनु and linked form+नु.
fn regular_lemma(sheet: &Lexicon<'_>, linked: &[u8], stem: &[u8]) -> Option<Spot>
    ensures { LemmaAt sheet.now.bytes.now (regular (replies sheet.now) linked.now stem.now) result }
{
    let open = verb_at(sheet, stem, b"\xE0\xA4\xA8\xE0\xA5\x81");
    if open.is_some() {
        return open;
    }
    let closed = verb_at(sheet, stem, b"\xE0\xA5\x8D\xE0\xA4\xA8\xE0\xA5\x81");
    if closed.is_some() {
        return closed;
    }
    if !ends_in_aa(stem) {
        return verb_at(sheet, linked, b"\xE0\xA4\xA8\xE0\xA5\x81");
    }
    let vowel = verb_at(sheet, stem, b"\xE0\xA4\x89\xE0\xA4\xA8\xE0\xA5\x81");
    if vowel.is_some() {
        return vowel;
    }
    verb_at(sheet, linked, b"\xE0\xA4\xA8\xE0\xA5\x81")
}

// Where the infinitive that a link line names stands, if it is a verb. `link` is the infinitive's part of the line.
fn linked_verb(sheet: &Lexicon<'_>, link: Spot) -> Option<Spot>
    requires { SpotIn sheet.now.bytes.now (Some link) }
    ensures { LemmaAt sheet.now.bytes.now (verb_told (replies sheet.now) (text_at sheet.now.bytes.now (Some link))) result }
{
    let at = link.at;
    let end = at + link.len;
    verb_at(sheet, &sheet.bytes[at..end], b"")
}

// The lemma of a linked form and its stem. A link line decides alone, so that no verb of like spelling takes its place.
fn supported_infinitive(sheet: &Lexicon<'_>, linked: &[u8], stem: &[u8]) -> Option<Spot>
    ensures { LemmaAt sheet.now.bytes.now (lemma_of (replies sheet.now) linked.now stem.now) result }
{
    if stem.is_empty() || ends_with(stem, b"\xE0\xA5\x8D") {
        return None;
    }
    match sheet.link_of(linked) {
        Some(link) => linked_verb(sheet, link),
        None => regular_lemma(sheet, linked, stem),
    }
}

// Whether the word ends in रहेको, रहेकी or रहेका.
fn ends_in_rahek(word: &[u8]) -> bool
    ensures { result ≡ ends_in_rahek word.now }
{
    ends_with(word, "रहेको".as_bytes())
        || ends_with(word, "रहेकी".as_bytes())
        || ends_with(word, "रहेका".as_bytes())
}

// Whether the word ends in one of the three, and ि or इ stands before it. This is asked of every piece of a word, and most pieces
// end otherwise, so it comes before all questions to the sheet.
#[tactic(auto, unfolding(crate::specs::Progressive::is_shaped))]
fn is_shaped(word: &[u8]) -> bool
    ensures { result ≡ is_shaped word.now }
{
    if !ends_in_rahek(word) {
        return false;
    }
    let stem = &word[..word.len() - 15];
    ends_with(stem, b"\xE0\xA4\xBF") || ends_with(stem, b"\xE0\xA4\x87")
}

// A progressive form with the lemma that was found.
fn form_with(main_end: usize, negative: bool, lemma: Spot) -> Progressive
    ensures { result ≡ form_with main_end negative lemma }
{
    Progressive {
        main_end,
        negative,
        lemma_at: lemma.at,
        lemma_len: lemma.len,
    }
}

// The progressive form of the word, if it is one. The न is tried only where the search with it finds nothing.
pub fn find_progressive(word: &[u8], sheet: &Lexicon<'_>) -> Option<Progressive>
    ensures { FormAt sheet.now.bytes.now word.now result }
{
    if !is_shaped(word) {
        return None;
    }
    if !is_verb(
        sheet,
        b"\xE0\xA4\xB0\xE0\xA4\xB9\xE0\xA4\xA8\xE0\xA5\x81",
        b"",
    ) {
        return None;
    }
    let main_end = word.len() - 15;
    let stem_end = word.len() - 18;
    if let Some(lemma) = supported_infinitive(sheet, &word[..main_end], &word[..stem_end]) {
        return Some(form_with(main_end, false, lemma));
    }
    if !begins_with(&word[..stem_end], b"\xE0\xA4\xA8") {
        return None;
    }
    let positive = supported_infinitive(sheet, &word[3..main_end], &word[3..stem_end])?;
    Some(form_with(main_end, true, positive))
}

// Whether the piece is a supported progressive form, one in which a lemma is found.
pub fn has_supported_progressive_form(sheet: &Lexicon<'_>, piece: &[u8]) -> bool
    ensures { result ≡ is_progressive (replies sheet.now) piece.now }
{
    find_progressive(piece, sheet).is_some()
}

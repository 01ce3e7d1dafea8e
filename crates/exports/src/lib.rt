// The static library's functions: what Rust and C call. They take numbers and slices of numbers alone.
#![tactic(auto)]

ghost use Rattle.std.specs.Prelude.{Some, ◌≡◌, ◌+◌, ◌*◌, ◌≤◌};
ghost use Rattle.text.specs.Word.{word_check, word_limit};
ghost use Rattle.sheet.specs.Limits.{sheet_limit};
ghost use Rattle.sheet.specs.Lines.{sheet_check};
ghost use Rattle.sheet.specs.Inputs.{Placed};
ghost use Rattle.progressive.specs.Answers.{answer_of, supported_of};
ghost use Rattle.origin.specs.Answers.{decision_answer};
ghost use Rattle.analysis.specs.Answers.{has_of};
ghost use Rattle.roots.specs.Answers.{known_answer};
ghost use Rattle.listing.specs.Printed.{outcome_of, left_of};
ghost use Rattle.exports.specs.Codes.{answered, word_code, sheet_code, refusal_code, form_value, progressive_code, yes_code, PlacedIn, Small, written_code, origin_number, source_number, origin_code, confidence_of};

use analysis::entry::has_supported_analysis;
use listing::entry::write_readings;
use origin::entries::classify_with_provenance;
use origin::{OriginDecision, OriginSource};
use progressive::entry::{analyze_progressive, has_supported_progressive_form};
use progressive::find::Progressive;
use refusals::Refusal;
use roots::entries::has_known_root;
use sheet::check::check_sheet;
use tables::origins::Origin;
use text::word::check_word;

pub mod edits;
pub mod parts;
pub mod references;
pub mod rescue;
pub mod rows;
mod stored;
pub mod surface;
pub mod tokens;
pub mod visits;

// A refusal as a number: its own number in the lowest byte, and above it the place that comes with it.
pub(crate) fn refusal_code(refusal: Refusal) -> u64
    requires { Placed refusal }
    ensures { result ≡ refusal_code refusal }
{
    let number = refusal.number() as u64;
    match refusal.place() {
        None => number,
        Some(at) => number + 256 * (at as u64),
    }
}

// 0 for a word that is accepted, else its refusal: 1, 2 or 3.
#[unsafe(no_mangle)]
pub extern "C" fn yunthirel_check_word(word: &[u8]) -> u64
    ensures { result ≡ word_code (word_check word.now) }
{
    match check_word(word) {
        Ok(()) => 0,
        Err(fault) => refusal_code(Refusal::from(fault)),
    }
}

// 0 for a sheet that is accepted, else its refusal: 4, or 5 or 6 with the first byte of the faulty line.
#[unsafe(no_mangle)]
pub extern "C" fn yunthirel_check_sheet(sheet: &[u8]) -> u64
    ensures { result ≡ sheet_code (sheet_check sheet.now) }
{
    match check_sheet(sheet) {
        Ok(()) => 0,
        Err(fault) => refusal_code(Refusal::from(fault)),
    }
}

// A yes or a no; else the refusal.
fn yes_code(answer: Result<bool, Refusal>) -> u64
    requires { PlacedIn answer }
    ensures { result ≡ yes_code answer }
{
    match answer {
        Ok(yes) => 256 * u64::from(yes),
        Err(refusal) => refusal_code(refusal),
    }
}

// A form as an answer: bit 0 of its value, the sign in bit 1, 8 bits for the end of the main form, 8 for the length of the lemma's name
// and the rest for its place in the sheet.
fn form_code(form: Progressive) -> u64
    requires { (form.main_end ≤ word_limit) × (form.lemma_len ≤ 210) × (form.lemma_at + form.lemma_len ≤ sheet_limit) }
    ensures { result ≡ answered (form_value (Some form)) }
{
    let places = 4 * (form.main_end as u64)
        + 1024 * (form.lemma_len as u64)
        + 262144 * (form.lemma_at as u64);
    if form.negative {
        return 256 * (3 + places);
    }
    256 * (1 + places)
}

// The progressive form of the word, as `form_code` gives it, 0 for none; else the refusal. The auxiliary is the rest of the word after the main form.
#[unsafe(no_mangle)]
pub extern "C" fn yunthirel_progressive(word: &[u8], sheet: &[u8]) -> u64
    ensures { result ≡ progressive_code (answer_of word.now sheet.now) }
{
    match analyze_progressive(word, sheet) {
        Err(refusal) => refusal_code(refusal),
        Ok(None) => 0,
        Ok(Some(form)) => form_code(form),
    }
}

// Whether the word is a supported progressive form; else the refusal.
#[unsafe(no_mangle)]
pub extern "C" fn yunthirel_has_progressive(word: &[u8], sheet: &[u8]) -> u64
    ensures { result ≡ yes_code (supported_of word.now sheet.now) }
{
    yes_code(has_supported_progressive_form(word, sheet))
}

// Whether the word has a reading; else the refusal, of which more than 64 readings is one.
#[unsafe(no_mangle)]
pub extern "C" fn yunthirel_has_analysis(word: &[u8], sheet: &[u8]) -> u64
    ensures { result ≡ yes_code (has_of word.now sheet.now) }
{
    yes_code(has_supported_analysis(word, sheet))
}

// Whether the word has a root candidate; else the refusal.
#[unsafe(no_mangle)]
pub extern "C" fn yunthirel_has_known_root(word: &[u8], sheet: &[u8]) -> u64
    ensures { result ≡ yes_code (known_answer word.now sheet.now) }
{
    yes_code(has_known_root(word, sheet))
}

// A number of bytes written, or of pieces visited; else the refusal.
pub(crate) fn written_code(outcome: Result<usize, Refusal>) -> u64
    requires { Small outcome }
    ensures { result ≡ written_code outcome }
{
    match outcome {
        Ok(n) => 256 * (n as u64),
        Err(refusal) => refusal_code(refusal),
    }
}

// Writes the list of the word's readings at the front of `out`, as document 01's program prints it, and gives the number of bytes.
// Where nothing is written, and `out` is as it was: the refusal. 37,386 bytes are always enough.
#[unsafe(no_mangle)]
pub extern "C" fn yunthirel_listing(word: &[u8], sheet: &[u8], out: &mut [u8]) -> u64
    ensures { (result ≡ written_code (outcome_of word.now sheet.now out.old))
        × (out.new ≡ left_of word.now sheet.now out.old) }
{
    written_code(write_readings(word, sheet, out))
}

// The number that C has for an origin.
fn origin_number(origin: Origin) -> u8
    ensures { (result ≡ origin_number origin) × (result ≤ 3) }
{
    origin as u8
}

// The number that C has for a source.
fn source_number(source: OriginSource) -> u8
    ensures { (result ≡ source_number source) × (result ≤ 3) }
{
    source as u8
}

// Origin and source of a decision; the confidence is a number of its own kind and has its own function.
fn decision_code(decision: OriginDecision) -> u64
    ensures { result ≡ answered (origin_number decision.origin + 4 * source_number decision.source) }
{
    256 * u64::from(origin_number(decision.origin) + 4 * source_number(decision.source))
}

// Where the word comes from, in bits 0 and 1 of the value, and how that is known, in bits 2 and 3; else the refusal.
#[unsafe(no_mangle)]
pub extern "C" fn yunthirel_origin(word: &[u8], sheet: &[u8]) -> u64
    ensures { result ≡ origin_code (decision_answer word.now sheet.now) }
{
    match classify_with_provenance(word, sheet) {
        Ok(decision) => decision_code(decision),
        Err(refusal) => refusal_code(refusal),
    }
}

// How surely the origin is known; 0.0 for a refused word or sheet.
#[unsafe(no_mangle)]
pub extern "C" fn yunthirel_confidence(word: &[u8], sheet: &[u8]) -> f32
    ensures { result ≡ confidence_of (decision_answer word.now sheet.now) }
{
    match classify_with_provenance(word, sheet) {
        Ok(decision) => decision.confidence,
        Err(_) => 0.0,
    }
}

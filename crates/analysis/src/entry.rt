// The core call and those beside it: a word and a sheet lent, each tested before anything is asked, the list by value.
ghost use Rattle.std.specs.Prelude.{◌≡◌, eqb, length, Ok, Err};
ghost use Rattle.runs.specs.Runs.{pick};
ghost use Rattle.text.specs.Characters.{chars};
ghost use Rattle.text.specs.Word.{word_check};
ghost use Rattle.lookup.specs.Lexicons.{replies};
ghost use Rattle.ranking.specs.Lists.{plus_all};
ghost use Rattle.paths.specs.Visits.{visits_of};
ghost use Rattle.paths.specs.Walk.{word_walk};
ghost use Rattle.analysis.specs.Answers.{collected, list_of, answer_of, visits_given, visits_answer, best_of, has_kept, has_of};

use crate::origins::classify_rows;
use crate::piece::Piece;
use crate::suffixes::visit;
use lookup::asked::Asked;
use lookup::lexicon::Lexicon;
use lookup::lines::with_lexicon;
use paths::{Chain, ROWS};
use progressive::find::has_supported_progressive_form;
use ranking::kept::Kept;
use ranking::{Classified, Listing, blank};
use refusals::Refusal;
use text::word::check_word;

// The list of readings, or why there is none; beside it how many pieces were visited, also where there are too many readings, and 0 where
// word or sheet is refused.
#[derive(Clone, Copy)]
pub struct Analysis {
    pub list: Result<Listing, Refusal>,
    pub visits: usize,
}

// What was counted for a word of so many bytes: nothing for an empty one, which the source does not enter.
fn unless_empty(len: usize, visits: usize) -> usize
    ensures { result ≡ pick (eqb len 0) 0 visits }
{
    if len == 0 { 0 } else { visits }
}

// Keeps the readings of an accepted word under an accepted sheet, in rank order, and gives how many pieces were visited.
pub fn keep_readings(word: &[u8], sheet: &Lexicon<'_>, kept: &mut Kept) -> usize
    requires { word_check word.now ≡ Ok tt }
    ensures { (kept.new ≡ plus_all word.now kept.old (word_walk (replies sheet.now) (chars word.now) word.now)) × (result ≡ visits_of (replies sheet.now) word.now) }
{
    let asked = Asked {
        word,
        sheet,
        surface: text::characters::count(word) as u16,
    };
    let whole = Piece {
        asked: &asked,
        surface: asked.surface,
        end: word.len(),
        chain: Chain {
            segments: [blank(); 4],
            count: 0,
        },
        rows: ROWS,
        times: 1,
        progressive: has_supported_progressive_form(sheet, word),
    };
    let visits = visit(&whole, kept);
    unless_empty(word.len(), visits)
}

// What is given where word and sheet are accepted: all readings, or that there are more than 64; and the pieces visited in any case.
fn listed(word: &[u8], sheet: &Lexicon<'_>) -> Analysis
    requires { word_check word.now ≡ Ok tt }
    ensures { (result.list ≡ list_of (replies sheet.now) word.now (collected word.now sheet.now.bytes.now)) × (result.visits ≡ visits_of (replies sheet.now) word.now) }
{
    let mut kept = Kept::new();
    let visits = keep_readings(word, sheet, &mut kept);
    let list = match kept.rows() {
        None => Err(Refusal::TooManyReadings),
        Some(rows) => Ok(classify_rows(word, sheet, rows)),
    };
    Analysis { list, visits }
}

// Nothing listed and nothing visited, and why.
fn refused(refusal: Refusal) -> Analysis
    ensures { (result.list ≡ Err refusal) × (result.visits ≡ 0) }
{
    Analysis {
        list: Err(refusal),
        visits: 0,
    }
}

// Every reading of the word that an accepted sheet supports, or why there is no list, and the pieces visited.
pub fn analyze_affixes_in(word: &[u8], sheet: &Lexicon<'_>) -> Analysis
    ensures { (result.list ≡ answer_of word.now sheet.now.bytes.now) × (result.visits ≡ visits_given word.now sheet.now.bytes.now) }
{
    match check_word(word) {
        Err(fault) => refused(Refusal::from(fault)),
        Ok(()) => listed(word, sheet),
    }
}

// The core call: every reading of the word that the sheet supports, each once, in rank order; or why there is none: the lowest
// number that applies. Beside it how many pieces the source's walk visits.
pub fn analyze_affixes(word: &[u8], sheet: &[u8]) -> Analysis
    ensures { (result.list ≡ answer_of word.now sheet.now) × (result.visits ≡ visits_given word.now sheet.now) }
{
    if let Err(fault) = check_word(word) {
        return refused(Refusal::from(fault));
    }
    match with_lexicon(sheet, |lexicon| listed(word, lexicon)) {
        Err(fault) => refused(Refusal::from(fault)),
        Ok(analysis) => analysis,
    }
}

// The reading that comes first by rank, if there is one.
pub fn best_analysis(word: &[u8], sheet: &[u8]) -> Result<Option<Classified>, Refusal>
    ensures { result ≡ best_of word.now sheet.now }
{
    let list = analyze_affixes(word, sheet).list?;
    Ok(list.as_slice().first().copied())
}

// Whether there is a reading, where word and sheet are accepted: no list is made for it.
fn has_in(word: &[u8], sheet: &Lexicon<'_>) -> Result<bool, Refusal>
    requires { word_check word.now ≡ Ok tt }
    ensures { result ≡ has_kept (replies sheet.now) word.now (collected word.now sheet.now.bytes.now) }
{
    let mut kept = Kept::new();
    let _ = keep_readings(word, sheet, &mut kept);
    let Some(rows) = kept.rows() else {
        return Err(Refusal::TooManyReadings);
    };
    Ok(rows.as_slice().first().is_some())
}

// Whether the word has a reading.
pub fn has_supported_analysis(word: &[u8], sheet: &[u8]) -> Result<bool, Refusal>
    ensures { result ≡ has_of word.now sheet.now }
{
    check_word(word)?;
    with_lexicon(sheet, |lexicon| has_in(word, lexicon))?
}

// The pieces visited alone, where word and sheet are accepted.
fn visits_in(word: &[u8], sheet: &Lexicon<'_>) -> usize
    requires { word_check word.now ≡ Ok tt }
    ensures { result ≡ visits_of (replies sheet.now) word.now }
{
    let mut kept = Kept::new();
    keep_readings(word, sheet, &mut kept)
}

// How many pieces the source's walk visits for the word: the number alone, also where there are too many readings to list.
pub fn visits_of(word: &[u8], sheet: &[u8]) -> Result<usize, Refusal>
    ensures { result ≡ visits_answer word.now sheet.now }
{
    check_word(word)?;
    Ok(with_lexicon(sheet, |lexicon| visits_in(word, lexicon))?)
}

// How much looking a word costs.
ghost use Rattle.std.specs.Prelude.{◌≡◌};
ghost use Rattle.analysis.specs.Answers.{visits_answer};
ghost use Rattle.exports.specs.Codes.{visits_code};

use crate::written_code;
use analysis::entry::visits_of;

// How many pieces the source's walk visits for the word, also where it has too many readings to list; else the refusal, 1 to 6.
#[unsafe(no_mangle)]
pub extern "C" fn yunthirel_visits(word: &[u8], sheet: &[u8]) -> u64
    ensures { result ≡ visits_code (visits_answer word.now sheet.now) }
{
    written_code(visits_of(word, sheet))
}

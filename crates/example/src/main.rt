// The README's example: the root of a word's best reading, by the core call.
#![tactic(auto)]

use analysis::entry::best_analysis;
use ranking::root_of;
use std::io;
use std::io::Write;

fn main(rt: HostRuntime) -> io::Result<()> {
    let word = b"\xE0\xA4\x98\xE0\xA4\xB0\xE0\xA4\xB2\xE0\xA5\x87"; // घरले
    let sheet = b"(w \xE0\xA4\x98\xE0\xA4\xB0 (wh))\n"; // (w घर (wh))
    if let Ok(Some(best)) = best_analysis(word, sheet) {
        rt.stdout().write_all(root_of(word, best.reading))?;
    }
    Ok(())
}

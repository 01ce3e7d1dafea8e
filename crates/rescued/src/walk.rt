// The walk over the stretches of a torn sheet: each ends with its 0A, the last one perhaps without.
ghost use Rattle.std.specs.Prelude.{◌≡◌, ◌-◌, ◌≤◌, ◌<◌, length, Some};
ghost use Rattle.sheet.specs.Walks.{Standing};
ghost use Rattle.writing.specs.Writers.{with_text};
ghost use Rattle.rescued.specs.Stretches.{cut_line};
ghost use Rattle.rescued.specs.Places.{line_end, dropped_at, Stepped};

use runs::find;
use sheet::line::LineFault;
use sheet::walk::Walk;
use writing::Writer;

// A stretch that was reached: its fault, none where it is kept, and the walk from behind it, which begins where it ends.
#[derive(Clone, Copy)]
pub(crate) struct Reach {
    pub fault: Option<LineFault>,
    pub next: Walk,
}

// Where the stretch that begins at `at` ends: behind its 0A, or with the input.
#[tactic(auto, using(crate::proofs::Stretched::end_behind, crate::proofs::Stretched::end_last))]
fn line_end(s: &[u8], at: usize) -> usize
    requires { at < length s.now }
    ensures { result ≡ line_end s.now at }
{
    let feed = find(s, at, s.len(), b'\n');
    if feed < s.len() {
        return feed + 1;
    }
    feed
}

// The stretch at which the walk stands, where it is dropped: the last kept line stays the same.
fn dropped(s: &[u8], walk: Walk, fault: LineFault) -> Reach
    requires { walk.at < length s.now }
    ensures { result ≡ dropped_at s.now walk fault }
{
    Reach {
        fault: Some(fault),
        next: Walk {
            at: line_end(s, walk.at),
            last: walk.last,
        },
    }
}

// The stretch at which the walk stands; there is one. A form stands at the last kept line.
pub(crate) fn next_stretch(s: &[u8], walk: Walk) -> Reach
    requires { (walk.at < length s.now) × Standing s.now walk.last }
    ensures { Stepped s.now walk result }
{
    match walk.step(s) {
        Ok(Some(form)) => Reach {
            fault: None,
            next: form.next,
        },
        Ok(None) => dropped(s, walk, LineFault::NoForm),
        Err(fault) => dropped(s, walk, fault),
    }
}

// Puts the report's line of a dropped stretch.
#[tactic(auto, unfolding(crate::specs::Stretches::cut_line))]
pub(crate) fn put_cut(report: &mut Writer, start: usize, len: usize, fault: LineFault)
    ensures { report.new ≡ with_text report.old (cut_line start len (Some fault)) }
{
    let why: &[u8] = match fault {
        LineFault::NoForm => b" form)\n",
        LineFault::NotAbove => b" order)\n",
    };
    report.put(b"(cut ");
    report.put_decimal(start);
    report.put(b" ");
    report.put_decimal(len);
    report.put(why);
}

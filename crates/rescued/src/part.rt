// The kept sheet alone, and the report part by part: for a program that has no room for a whole report.
ghost use Rattle.std.specs.Prelude.{◌≡◌, ◌≤◌, length, leb, None};
ghost use Rattle.sheet.specs.Limits.{sheet_limit};
ghost use Rattle.sheet.specs.Walks.{Standing};
ghost use Rattle.writing.specs.Placed.{Whole};
ghost use Rattle.rescued.specs.Stretches.{kept_of};
ghost use Rattle.rescued.specs.Places.{Standing-prop};
ghost use Rattle.rescued.specs.Parts.{Parted};

use crate::entry::put_both;
use crate::walk::{next_stretch, put_cut};
use sheet::walk::Walk;
use writing::Writer;

// A torn sheet within its limit.
#[derive(Clone, Copy)]
pub struct Torn<'s> {
    pub sheet: &'s [u8],
    ghost short: { length sheet.now ≤ sheet_limit },
}

// The report of a torn sheet from the walk's place on. A form stands at the last kept line.
#[derive(Clone, Copy)]
pub struct Rest<'s> {
    pub torn: Torn<'s>,
    pub walk: Walk,
    ghost inside: { walk.at ≤ length torn.sheet.now },
    ghost standing: { Standing torn.sheet.now walk.last } by { Standing-prop torn.sheet.now walk.last },
}

// How much of the report was written, and what is left of it.
#[derive(Clone, Copy)]
pub struct Part<'s> {
    pub rest: Rest<'s>,
    pub size: usize,
}

impl<'s> Torn<'s> {
    // Writes the kept sheet at the front of a buffer that is always long enough, and gives how long it is.
    pub fn put_kept(&self, out: &mut [u8; 65536]) -> usize
        ensures { Whole (kept_of self.now.sheet.now) out.old out.new result }
    {
        put_both(self.sheet, out, &mut []).kept
    }

    // The whole report.
    pub fn report(&self) -> Rest<'s>
        ensures { (result.torn ≡ self.now) × (result.walk ≡ record { at = 0; last = None }) }
    {
        Rest {
            torn: *self,
            walk: Walk { at: 0, last: None },
        }
    }
}

impl<'s> Rest<'s> {
    // Whether nothing is left.
    pub fn is_over(&self) -> bool
        ensures { result ≡ leb (length self.now.torn.sheet.now) self.now.walk.at }
    {
        self.torn.sheet.len() <= self.walk.at
    }

    // Writes the report's lines into 4,096 bytes, as many as there is room for, and at least one where there is a line. Free: where a part
    // ends.
    pub fn put_part(&self, out: &mut [u8; 4096]) -> Part<'s>
        ensures { (result.rest.torn ≡ self.now.torn) × Parted self.now.torn.sheet.now self.now.walk result.rest.walk out.old out.new result.size }
    {
        let sheet = self.torn.sheet;
        let mut w = Writer::new(out);
        let mut walk = self.walk;
        while walk.at < sheet.len() && w.at() <= 4072 {
            let at = walk.at;
            let reached = next_stretch(sheet, walk);
            walk = reached.next;
            if let Some(fault) = reached.fault {
                put_cut(&mut w, at, walk.at - at, fault);
            }
        }
        let rest = Rest {
            torn: self.torn,
            walk,
        };
        Part { rest, size: w.at() }
    }
}

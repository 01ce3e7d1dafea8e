// The rows of a listing, put piece by piece.
ghost use Rattle.std.specs.Prelude.{◌≡◌, ◌*◌, ◌≤◌, length, take};
ghost use Rattle.text.specs.Word.{word_limit};
ghost use Rattle.writing.specs.Placed.{Wrote};
ghost use Rattle.writing.specs.Refused.{parted};
ghost use Rattle.writing.specs.Writers.{with_text};
ghost use Rattle.listing.specs.Texts.{kind_text, mark_text, segment_text, prefix_texts, segment_texts, reading_text, end_text, row_text, row_texts, listing_text, reading_room, row_room, listing_room};

use crate::each::put_parted;
use ranking::{AffixKind, Classified, Reading, Segment, root_of, stem_of};
use tables::origins::Origin;
use tables::{affix, prefix_label};
use writing::Writer;

// Puts the name of a kind.
fn put_kind(w: &mut Writer, kind: AffixKind)
    ensures { w.new ≡ with_text w.old (kind_text kind) }
{
    match kind {
        AffixKind::Particle => w.put(b"particle"),
        AffixKind::CaseMarker => w.put(b"case"),
        AffixKind::PluralMarker => w.put(b"plural"),
        AffixKind::Postposition => w.put(b"post"),
        AffixKind::ComparisonMarker => w.put(b"comp"),
    }
}

// Puts the mark of a shared first letter, nothing for a plain suffix.
fn put_mark(w: &mut Writer, shared: bool)
    ensures { w.new ≡ with_text w.old (mark_text shared) }
{
    if shared {
        w.put(b" shared");
    }
}

// Puts a segment: its label, its kind, and its mark where its first letter is shared.
#[tactic(auto, using(std::proofs::lemmas::Grind::common_steps), unfolding(crate::specs::Texts::segment_text))]
fn put_segment(w: &mut Writer, s: Segment)
    ensures { w.new ≡ with_text w.old (segment_text s) }
{
    w.put(b"(");
    w.put(affix(usize::from(s.label)));
    w.put(b" ");
    put_kind(w, s.kind);
    put_mark(w, s.shared);
    w.put(b")");
}

// Puts the prefix labels of a reading.
fn put_prefixes(w: &mut Writer, row: Reading)
    ensures { w.new ≡ with_text w.old (parted (prefix_texts row)) }
{
    put_parted(
        w,
        row.prefix_rows(),
        |w, k| w.put(prefix_label(usize::from(k))),
    );
}

// Puts the segments of a reading.
fn put_segments(w: &mut Writer, row: Reading)
    ensures { w.new ≡ with_text w.old (parted (segment_texts row)) }
{
    put_parted(w, row.suffixes(), |w, s| put_segment(w, s));
}

// Puts what a row says of a reading: stem, root, prefix labels, segments and score, with a space behind it.
fn put_reading(w: &mut Writer, word: &[u8], row: Reading)
    ensures { (w.new ≡ with_text w.old (reading_text word.now row)) × (length word.now ≤ word_limit → length (reading_text word.now row) ≤ reading_room) }
{
    w.put(b"(r ");
    w.put(stem_of(word, row));
    w.put(b" ");
    w.put(root_of(word, row));
    w.put(b" (");
    put_prefixes(w, row);
    w.put(b") (");
    put_segments(w, row);
    w.put(b") ");
    w.put_decimal(usize::from(row.score));
    w.put(b" ");
}

// Puts the end of a row: the tag letter of an origin, t b d a, and what closes the row.
fn put_end(w: &mut Writer, origin: Origin)
    ensures { w.new ≡ with_text w.old (end_text origin) }
{
    match origin {
        Origin::Tatsam => w.put(b"t)\n"),
        Origin::Tadbhav => w.put(b"b)\n"),
        Origin::Deshaj => w.put(b"d)\n"),
        Origin::Aagantuk => w.put(b"a)\n"),
    }
}

// Puts a row: stem, root, prefix labels, segments and score of a reading, and the tag letter of its root's origin.
fn put_row(w: &mut Writer, word: &[u8], row: Classified)
    ensures { (w.new ≡ with_text w.old (row_text word.now row)) × (length word.now ≤ word_limit → length (row_text word.now row) ≤ row_room) }
{
    put_reading(w, word, row.reading);
    put_end(w, row.origin);
}

// Puts rows of a list, one after the other.
fn put_rows(w: &mut Writer, word: &[u8], rows: &[Classified])
    ensures { (w.new ≡ with_text w.old (row_texts word.now rows.now)) × (length word.now ≤ word_limit → length (row_texts word.now rows.now) ≤ length rows.now * row_room) }
{
    for &row in rows {
        put_row(w, word, row);
    }
}

// Puts the text of a list: how many rows there are, then the rows.
fn put_list(w: &mut Writer, word: &[u8], rows: &[Classified])
    requires { length rows.now ≤ 64 }
    ensures { (w.new ≡ with_text w.old (listing_text word.now rows.now)) × (length word.now ≤ word_limit → length (listing_text word.now rows.now) ≤ listing_room) }
{
    w.put(b"(list ");
    w.put_decimal(rows.len());
    w.put(b")\n");
    put_rows(w, word, rows);
}

// Puts a list at the front of `out`, as much of it as there is room for, and gives how long it is.
pub(crate) fn put_listing(word: &[u8], rows: &[Classified], out: &mut [u8]) -> usize
    requires { length rows.now ≤ 64 }
    ensures { Wrote out.old out.new 0 result (listing_text word.now rows.now) × (length word.now ≤ word_limit → length (listing_text word.now rows.now) ≤ listing_room) }
{
    let mut w = Writer::new(out);
    put_list(&mut w, word, rows);
    w.at()
}

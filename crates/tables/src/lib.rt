// The tables of the source, each a constant: lent whole, or row by row. Nothing is copied, and a row is an index into static data.
#![tactic(auto)]

ghost use Rattle.std.specs.Prelude.{◌≡◌, ◌<◌, [], length, get_or, map};
ghost use Rattle.tables.specs.Rows.{prefix_labels, prefix_forms, suffixes, strip_suffixes, origin_words, origin_tags};
ghost use Rattle.tables.specs.Tables.{affixes};

pub mod origins;
pub mod rows;

use origins::Origin;

// PREFIX_FORMS, 30 rows, in the source's order: each label with its surface form.
#[tactic(auto, unfolding(crate::specs::Rows::prefix_labels, crate::specs::Rows::prefix_forms))]
pub fn prefix_rows() -> &'static [(&'static str, &'static str)]
    ensures labels { map (λ (t : _). t.0.now) result.now ≡ prefix_labels }
    ensures forms { map (λ (t : _). t.1.now) result.now ≡ prefix_forms }
    ensures count { length result.now ≡ 30 }
{
    &rows::PREFIX_FORMS
}

// The label of row k of PREFIX_FORMS, the empty text where there is no such row.
pub fn prefix_label(k: usize) -> &'static [u8]
    ensures { result.now ≡ get_or prefix_labels k [] }
{
    prefix_rows().get(k).map_or(b"", |row| row.0.as_bytes())
}

// The surface form of row k of PREFIX_FORMS, the empty text where there is no such row.
pub fn prefix_form(k: usize) -> &'static [u8]
    ensures { result.now ≡ get_or prefix_forms k [] }
{
    prefix_rows().get(k).map_or(b"", |row| row.1.as_bytes())
}

// The 25 texts of the suffix chains in the order of paths: PLURAL_MARKERS in rows 0 and 1, CASE_MARKERS in rows 2 to 17, PARTICLES
// in rows 18 to 24.
#[tactic(auto, unfolding(crate::specs::Tables::affixes, crate::specs::Rows::plural_markers, crate::specs::Rows::case_markers, crate::specs::Rows::particles))]
pub fn affix_rows() -> &'static [&'static str]
    ensures rows { map (λ (t : _). t.now) result.now ≡ affixes }
    ensures count { length result.now ≡ 25 }
{
    &rows::AFFIXES
}

// Row k of the 25 texts, the empty text where there is no such row.
pub fn affix(k: usize) -> &'static [u8]
    ensures { result.now ≡ get_or affixes k [] }
{
    affix_rows().get(k).map_or(b"", |text| text.as_bytes())
}

// SUFFIXES, 24 rows, in the source's order.
#[tactic(auto, unfolding(crate::specs::Rows::suffixes))]
pub fn suffix_rows() -> &'static [&'static str]
    ensures rows { map (λ (t : _). t.now) result.now ≡ suffixes }
    ensures count { length result.now ≡ 24 }
{
    &rows::SUFFIXES
}

// Row k of SUFFIXES, the empty text where there is no such row.
pub fn suffix(k: usize) -> &'static [u8]
    ensures { result.now ≡ get_or suffixes k [] }
{
    suffix_rows().get(k).map_or(b"", |text| text.as_bytes())
}

// STRIP_SUFFIXES, 22 rows, in the source's order.
#[tactic(auto, unfolding(crate::specs::Rows::strip_suffixes))]
pub fn strip_suffix_rows() -> &'static [&'static str]
    ensures rows { map (λ (t : _). t.now) result.now ≡ strip_suffixes }
    ensures count { length result.now ≡ 22 }
{
    &rows::STRIP_SUFFIXES
}

// ORIGIN_TABLE, 79 rows, which ascend strictly by their words: each word with its origin. `origins::lookup_origin` searches it.
#[tactic(auto, unfolding(crate::specs::Rows::origin_words, crate::specs::Rows::origin_tags))]
pub fn origin_rows() -> &'static [(&'static str, Origin)]
    ensures words { map (λ (t : _). t.0.now) result.now ≡ origin_words }
    ensures origins { map (λ (t : _). t.1) result.now ≡ origin_tags }
    ensures count { length result.now ≡ 79 }
{
    &rows::ORIGIN_TABLE
}

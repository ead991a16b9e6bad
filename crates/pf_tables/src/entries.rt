ghost use Rattle.std.specs.Prelude.{◌≡◌, ◌<◌, length};
ghost use Rattle.pf_tables.specs.Meaning.Entries.{word_in, pattern_in, row_in};

use crate::row::Row;

/// An entry of a table's rows: the word and the rest of the line, and what stands with them.
pub type Entry = (&'static [u8], &'static [u8], Row);

/// The entry at this place.
pub fn entry_at(rows: &'static [Entry], k: usize) -> Entry
    requires { k < length rows.now }
    ensures word { result.0.now ≡ word_in rows.now k }
    ensures pattern { result.1.now ≡ pattern_in rows.now k }
    ensures row { result.2 ≡ row_in rows.now k }
{
    match rows.get(k) {
        Some((word, pattern, row)) => (word, pattern, *row),
        None => unreachable!(),
    }
}

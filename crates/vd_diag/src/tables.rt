//! Tables of words.

ghost use Rattle.std.specs.Prelude.{◌≡◌};
ghost use Rattle.std.specs.List.{find};
ghost use Rattle.std.specs.Str.{bytes_eq};
ghost use Rattle.vd_diag.specs.Parts as parts;

/// What a table has for a word, or another text.
pub fn in_table<'a>(table: &[(&'a [u8], &'a [u8])], word: &[u8], other: &'a [u8]) -> &'a [u8]
    ensures { result.now ≡ parts.in_table (parts.entries table.now) word.now other.now }
{
    for (entry, text) in table {
        if *entry == word {
            return *text;
        }
    }
    other
}

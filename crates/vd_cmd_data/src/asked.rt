//! The columns that are asked for.

ghost use Rattle.std.specs.Prelude.{◌≡◌, ◌<◌, ◌≤◌, ◌-◌, ◌^◌, IfSome, length};
ghost use Rattle.std.specs.List.{prefix_len};
ghost use Rattle.csv.specs.Records.{fields_of};
ghost use Rattle.vd_cmd_plan.specs.Plans.{Checks};
ghost use Rattle.vd_cmd_data.specs.Tables.{asked, column_of, each_from, factor_in, is_plain, place_from};
ghost use Rattle.vd_base.specs.Lexical.{number_of};

use crate::table::{cell_at, refused};
use csv::ByteRecord;
use std::alloc::Global;
use vd_base::{Items, Text, number};
use vd_cmd_plan::{Status, TableFault};

/// Which cell of a row is taken, and the factor of its word.
#[derive(Clone, Copy, Debug)]
pub(crate) struct Column {
    /// The number of the cell in its row, from 1 on.
    pub number: usize,
    /// From 1 on.
    pub factor: u32,
}

/// How many bytes stand before the first `*`.
#[tactic(auto, using(crate::proofs::Places::plain_fit))]
fn plain_len(word: &[u8]) -> usize
    ensures is { result ≡ prefix_len is_plain word.now }
    ensures fits { result ≤ length word.now }
{
    word.iter().take_while(|byte| **byte != b'*').count()
}

/// The factor that a text is, from 1 on.
fn factor_in(text: &[u8]) -> Option<u32>
    ensures { result ≡ factor_in (number_of text.now) }
{
    match number(text) {
        Some(0) => None,
        other => other,
    }
}

/// The name and the factor that a word asks for.
#[tactic(auto, using(crate::proofs::Places::behind_is))]
fn asked(word: &[u8]) -> (&[u8], u32)
    ensures name { result.0.now ≡ (asked word.now).0 }
    ensures factor { result.1 ≡ (asked word.now).1 }
{
    let plain = plain_len(word);
    if plain == word.len() {
        return (word, 1);
    }
    match factor_in(&word[plain + 1..]) {
        Some(factor) => (&word[..plain], factor),
        None => (word, 1),
    }
}

/// The place of the first cell with this name.
#[tactic(auto, using(crate::proofs::Places::next_place, crate::proofs::Places::found_place, crate::proofs::Places::no_place))]
fn place_of(header: &ByteRecord, name: &[u8]) -> Option<usize>
    ensures place { result ≡ place_from name.now 0 (fields_of header.now) }
    ensures fits { IfSome result (λ place. place < 2 ^ 64 - 1) }
{
    for place in 0..header.len() {
        if name == cell_at(header, place) {
            return Some(place);
        }
    }
    None
}

/// The column that the word with this number asks for.
#[tactic(auto, using(crate::proofs::Turns::refused_there))]
fn column_of(
    alloc: Global,
    file: &str,
    header: &ByteRecord,
    number: usize,
    word: &str,
) -> Result<Column, Status>
    ensures { Checks (column_of file.now (fields_of header.now) number word.now) result }
{
    let (name, factor) = asked(word.as_bytes());
    match place_of(header, name) {
        Some(place) => Ok(Column {
            number: place + 1,
            factor,
        }),
        None => Err(refused(alloc, file, 1, number, TableFault::NoColumn)),
    }
}

/// The columns that words ask for.
#[tactic(auto, using(crate::proofs::Turns::none_done, crate::proofs::Turns::one_done, crate::proofs::Turns::one_refused, crate::proofs::Turns::all_done))]
pub(crate) fn columns_of(
    alloc: Global,
    file: &str,
    header: &ByteRecord,
    words: &[Text],
) -> Result<Items<Column>, Status>
    ensures { Checks (each_from (column_of file.now (fields_of header.now)) 1 words.now) result }
{
    let mut columns = Items::new(alloc);
    for (index, word) in words.iter().enumerate() {
        let column = column_of(alloc, file, header, index + 1, word.as_str())?;
        columns.push(column)?;
    }
    Ok(columns)
}

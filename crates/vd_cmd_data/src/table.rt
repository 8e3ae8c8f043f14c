//! The rows of a table, and the words of the columns that are asked for.

ghost use Rattle.std.specs.Prelude.{◌≡◌, ◌<◌, ◌+◌, ◌*◌, ◌/◌, IfErr, IfOk, map, nat_le};
ghost use Rattle.csv.specs.Reading.{AreRecords, default_config, is_bom, records, strip_bom};
ghost use Rattle.csv.specs.declared.parser.State.TheVariants as st;
ghost use Rattle.csv.specs.Records.{fields_of};
ghost use Rattle.vd_cmd_plan.specs.Plans.{Checks};
ghost use Rattle.vd_cmd_plan.specs.declared.status.Status.TheVariants.{Memory};
ghost use Rattle.vd_base.specs.Limits.{most_input_words};
ghost use Rattle.vd_cmd_data.specs.Tables as tables;

use crate::asked::{Column, columns_of};
use crate::cell::cell_word;
use crate::lines::empty_line;
use csv::{ByteRecord, Error, ReaderBuilder};
use std::alloc::Global;
use vd_base::limits::INPUT_WORDS;
use vd_base::{Items, Text, Texts, Words};
use vd_cmd_plan::{Status, TableFault};

/// The status of a table that gives no words, of the place of its first fault.
pub(crate) fn refused(
    alloc: Global,
    file: &str,
    row: usize,
    column: usize,
    fault: TableFault,
) -> Status
    ensures { tables.IsRefusalAt file.now row column fault result }
{
    match Text::copy_of(alloc, file) {
        Ok(file) => Status::Table(file, row, column, fault),
        Err(_) => Status::Memory,
    }
}

/// All records of a CSV text, the header too.
fn read_records(alloc: Global, text: &[u8]) -> Result<Vec<ByteRecord>, Error>
    ensures { IfOk result (λ rows. AreRecords default_config st.StartRecord (strip_bom text.now) (map fields_of rows.items)) }
{
    let reader = ReaderBuilder::new()
        .has_headers(false)
        .flexible(true)
        .from_reader(alloc, text);
    let mut rows = Vec::new(alloc);
    for row in reader.into_byte_records() {
        if rows.push(row?).is_err() {
            return Err(Error::out_of_memory());
        }
    }
    Ok(rows)
}

/// The same. A slice is read without a fault, and records may have any lengths: so what can fail here is memory.
fn records_of(alloc: Global, text: &[u8]) -> Result<Vec<ByteRecord>, Status>
    ensures ok { IfOk result (λ rows. map fields_of rows.items ≡ records default_config (strip_bom text.now)) }
    ensures err { IfErr result (λ status. status ≡ Memory) }
{
    match read_records(alloc, text) {
        Ok(rows) => Ok(rows),
        Err(_) => Err(Status::Memory),
    }
}

/// The cell at a place, empty where there is none.
pub(crate) fn cell_at(row: &ByteRecord, place: usize) -> &[u8]
    ensures { result.now ≡ tables.cell_of (fields_of row.now) place }
{
    match row.get(place) {
        Some(cell) => cell,
        None => &[],
    }
}

/// The word of a column in a row.
#[tactic(auto, using(crate::proofs::Turns::refused_there))]
fn word_at(
    alloc: Global,
    file: &str,
    number: usize,
    row: &ByteRecord,
    column: Column,
) -> Result<u32, Status>
    ensures { Checks (tables.word_at file.now number (fields_of row.now) column) result }
{
    let cell = cell_at(row, column.number.saturating_sub(1));
    match cell_word(column.factor, cell) {
        Ok(word) => Ok(word),
        Err(fault) => Err(refused(alloc, file, number, column.number, fault)),
    }
}

/// The words of the columns in a row.
#[tactic(auto, using(crate::proofs::Turns::none_done, crate::proofs::Turns::next_done, crate::proofs::Turns::all_done))]
fn words_at(
    alloc: Global,
    file: &str,
    columns: &[Column],
    number: usize,
    row: &ByteRecord,
) -> Result<Words, Status>
    ensures { Checks (tables.each_from (λ _ column. tables.word_at file.now number (fields_of row.now) column) 1 columns.now) result }
{
    let mut words = Words::new(alloc);
    for column in columns {
        let word = word_at(alloc, file, number, row, *column)?;
        words.push(word)?;
    }
    Ok(words)
}

/// The words of a row, which has as many cells as the header.
#[tactic(auto, using(crate::proofs::Turns::refused_there))]
fn row_words(
    alloc: Global,
    file: &str,
    columns: &[Column],
    width: usize,
    number: usize,
    row: &ByteRecord,
) -> Result<Words, Status>
    ensures { Checks (tables.row_words file.now columns.now width number (fields_of row.now)) result }
{
    if row.len() == width {
        words_at(alloc, file, columns, number, row)
    } else {
        Err(refused(alloc, file, number, 1, TableFault::Length))
    }
}

/// The words of all rows.
#[tactic(auto, using(crate::proofs::Turns::none_done, crate::proofs::Turns::one_more, crate::proofs::Turns::one_stops, crate::proofs::Turns::all_are))]
fn rows_words(
    alloc: Global,
    file: &str,
    columns: &[Column],
    width: usize,
    rows: &[ByteRecord],
) -> Result<Items<Words>, Status>
    ensures { Checks (tables.each_from (tables.row_words file.now columns.now width) 2 (map fields_of rows.now)) result }
{
    let mut list = Items::new(alloc);
    for (index, row) in rows.iter().enumerate() {
        let words = row_words(alloc, file, columns, width, index + 2, row)?;
        list.push(words)?;
    }
    Ok(list)
}

/// Whether so many rows of so many words are no more than a section may have.
#[tactic(auto, using(crate::proofs::Few::none_fit, crate::proofs::Few::some_fit))]
fn are_few(rows: usize, columns: usize) -> bool
    ensures { result ≡ nat_le (rows * columns) most_input_words }
{
    if columns == 0 {
        return true;
    }
    rows <= INPUT_WORDS as usize / columns
}

/// The number of the first row with which there are more words than a section may have, of which the header is the first row.
fn first_above(columns: usize) -> usize
    requires { 0 < columns }
    ensures { result ≡ most_input_words / columns + 2 }
{
    INPUT_WORDS as usize / columns + 2
}

/// The words of all rows, where they are no more than a section may have.
#[tactic(auto, using(crate::proofs::Turns::refused_there, crate::proofs::Few::some_columns))]
fn counted_words(
    alloc: Global,
    file: &str,
    columns: &[Column],
    width: usize,
    rows: &[ByteRecord],
) -> Result<Items<Words>, Status>
    ensures { Checks (tables.counted_words file.now columns.now width (map fields_of rows.now)) result }
{
    if are_few(rows.len(), columns.len()) {
        rows_words(alloc, file, columns, width, rows)
    } else {
        let row = first_above(columns.len());
        Err(refused(alloc, file, row, 1, TableFault::Many))
    }
}

/// The words of records, of which the first is the header.
#[tactic(auto, using(crate::proofs::Turns::refused_there))]
fn words_of(
    alloc: Global,
    file: &str,
    words: &[Text],
    records: &[ByteRecord],
) -> Result<Items<Words>, Status>
    ensures { Checks (tables.words_of file.now words.now (map fields_of records.now)) result }
{
    let [header, rows @ ..] = records else {
        return Err(refused(alloc, file, 1, 1, TableFault::NoHeader));
    };
    let columns = columns_of(alloc, file, header, words)?;
    counted_words(alloc, file, columns.as_slice(), header.len(), rows)
}

/// Whether three bytes are a byte order mark.
fn is_mark(first: u8, second: u8, third: u8) -> bool
    ensures { result ≡ is_bom first second third }
{
    first == 0xEF && second == 0xBB && third == 0xBF
}

/// A text without the byte order mark at its start.
#[tactic(auto, using(crate::proofs::Marks::short))]
fn without_mark(bytes: &[u8]) -> &[u8]
    ensures { result.now ≡ strip_bom bytes.now }
{
    match bytes {
        [first, second, third, text @ ..] => {
            if is_mark(*first, *second, *third) {
                text
            } else {
                bytes
            }
        }
        _ => bytes,
    }
}

/// The words of the rows of a CSV text, in the columns that are asked for, or its first fault.
#[tactic(auto, using(crate::proofs::Turns::refused_there))]
pub(crate) fn table_words(
    alloc: Global,
    file: &str,
    words: &Texts,
    bytes: &[u8],
) -> Result<Items<Words>, Status>
    ensures { Checks (tables.table_words file.now words.now bytes.now) result }
{
    if let Some(line) = empty_line(without_mark(bytes)) {
        return Err(refused(alloc, file, line, 1, TableFault::EmptyLine));
    }
    let records = records_of(alloc, bytes)?;
    words_of(alloc, file, words.as_slice(), records.as_slice())
}

//! What `report` prints: lines, or one JSON object.

ghost use Rattle.std.specs.Prelude.{◌≡◌, ◌++◌, OnOk, IfOk};
ghost use Rattle.serde_json.specs.Data.{array};
ghost use Rattle.serde_json.specs.View.{view};
ghost use Rattle.vd_cmd_data.specs.ReportText as texts;

use crate::readings::Reading;
use itoa::Buffer;
use serde_json::{Value, json};
use std::alloc::{AllocError, Global};
use vd_base::Bytes;

/// What a word is as true or false, where it is shown so.
fn truth_of(reading: &Reading) -> Option<bool>
    ensures { result ≡ texts.truth_of reading.now.is_bool reading.now.word }
{
    if !reading.is_bool {
        None
    } else if reading.word == 0 {
        Some(false)
    } else if reading.word == 1 {
        Some(true)
    } else {
        None
    }
}

/// Puts a word at the end, as what it is.
fn push_value(text: &mut Bytes, reading: &Reading) -> Result<(), AllocError>
    ensures { OnOk result (text.new ≡ text.old ++ texts.value_text reading.now) }
{
    match truth_of(reading) {
        Some(true) => text.extend_from_slice(b"true"),
        Some(false) => text.extend_from_slice(b"false"),
        None => text.extend_from_slice(Buffer::new().format(reading.word).as_bytes()),
    }
}

/// Puts the line of a word at the end: its name, and the word.
fn push_line(text: &mut Bytes, reading: &Reading) -> Result<(), AllocError>
    ensures { OnOk result (text.new ≡ text.old ++ texts.line_text reading.now) }
{
    text.extend_from_slice(reading.name.as_slice())?;
    text.extend_from_slice(b" ")?;
    push_value(text, reading)?;
    text.extend_from_slice(b"\n")
}

/// A line for each word.
pub(crate) fn lines_text(alloc: Global, readings: &[Reading]) -> Result<Bytes, AllocError>
    ensures { IfOk result (λ text. text ≡ texts.lines_text readings.now) }
{
    let mut text = Bytes::new(alloc);
    for reading in readings {
        push_line(&mut text, reading)?;
    }
    Ok(text)
}

/// A word in JSON.
fn word_value(reading: &Reading) -> Value
    ensures { view result ≡ texts.value_data reading.now }
{
    match truth_of(reading) {
        Some(truth) => Value::Bool(truth),
        None => Value::from(reading.word),
    }
}

/// A word and its name in JSON.
fn reading_value(alloc: Global, reading: &Reading) -> Result<Value, AllocError>
    ensures { IfOk result (λ value. view value ≡ texts.reading_data reading.now) }
{
    let name = String::from_utf8_lossy(alloc, reading.name.as_slice())?;
    let value = word_value(reading);
    json!(in alloc; {"name": name, "value": value})
}

/// The words in JSON, in order.
fn outputs_value(alloc: Global, readings: &[Reading]) -> Result<Value, AllocError>
    ensures { IfOk result (λ value. view value ≡ array (texts.outputs_data readings.now)) }
{
    let mut values = Vec::new(alloc);
    for reading in readings {
        let value = reading_value(alloc, reading)?;
        serde_json::push(&mut values, value)?;
    }
    Ok(Value::Array(values))
}

/// The host and its words in JSON.
fn report_value(alloc: Global, host: &str, readings: &[Reading]) -> Result<Value, AllocError>
    ensures { IfOk result (λ value. view value ≡ texts.report_data host.now readings.now) }
{
    let outputs = outputs_value(alloc, readings)?;
    json!(in alloc; {"host": host, "outputs": outputs})
}

/// One line with a JSON object.
#[tactic(auto, using(crate::proofs::NoFloats::no_float))]
pub(crate) fn json_text(
    alloc: Global,
    host: &str,
    readings: &[Reading],
) -> Result<Bytes, AllocError>
    ensures { IfOk result (λ text. text ≡ texts.json_text host.now readings.now) }
{
    let value = report_value(alloc, host, readings)?;
    let text = value.to_string(alloc)?;
    let mut line = Bytes::from_slice(alloc, text.as_bytes())?;
    line.push(b'\n')?;
    Ok(line)
}

ghost use Rattle.std.specs.Prelude.{◌≡◌, ◌++◌, ◌≤◌, IfOk, OnOk, codes, decimal};
ghost use Rattle.vd_gen.specs.Source.{answer, binding, coordinate, generated, named, sum_line, sum_name};

use itoa::Buffer;
use std::alloc::{AllocError, Global};
use vd_base::Bytes;

/// The source for points with so many coordinates.
pub fn generate(alloc: Global, coordinates: u32) -> Result<Bytes, AllocError>
    requires { 1 ≤ coordinates }
    ensures { IfOk result (λ text. text ≡ generated coordinates) }
{
    let mut text = Bytes::new(alloc);
    text.extend_from_slice(
        b"principals A, B;\nhost alice {A ; A & B};\nhost bob {B ; A & B};\nmain {\n",
    )?;
    for number in 0..coordinates {
        push_coordinate(alloc, &mut text, number)?;
    }
    push_answer(alloc, &mut text, coordinates - 1)?;
    text.extend_from_slice(b"  output r to alice;\n  output r to bob;\n}\n")?;
    Ok(text)
}

/// Puts the lines of a coordinate at the end.
fn push_coordinate(alloc: Global, text: &mut Bytes, number: u32) -> Result<(), AllocError>
    ensures { OnOk result (text.new ≡ text.old ++ coordinate number) }
{
    let first = name(alloc, b"a", number)?;
    let second = name(alloc, b"b", number)?;
    let difference = name(alloc, b"d", number)?;
    let square = name(alloc, b"q", number)?;
    push_binding(text, first.as_slice(), b"input(alice)")?;
    push_binding(text, second.as_slice(), b"input(bob)")?;
    let subtracted = applied(alloc, first.as_slice(), b" - ", second.as_slice())?;
    push_binding(text, difference.as_slice(), subtracted.as_slice())?;
    let multiplied = applied(alloc, difference.as_slice(), b" * ", difference.as_slice())?;
    push_binding(text, square.as_slice(), multiplied.as_slice())?;
    push_sum(alloc, text, number)
}

/// Puts the line of the sum up to this coordinate at the end; the first has none.
fn push_sum(alloc: Global, text: &mut Bytes, number: u32) -> Result<(), AllocError>
    ensures { OnOk result (text.new ≡ text.old ++ sum_line number) }
{
    if number == 0 {
        return Ok(());
    }
    let before = name_of_sum(alloc, number - 1)?;
    let square = name(alloc, b"q", number)?;
    let sum = name_of_sum(alloc, number)?;
    let added = applied(alloc, before.as_slice(), b" + ", square.as_slice())?;
    push_binding(text, sum.as_slice(), added.as_slice())
}

/// Puts the line of the answer at the end.
fn push_answer(alloc: Global, text: &mut Bytes, last: u32) -> Result<(), AllocError>
    ensures { OnOk result (text.new ≡ text.old ++ answer last) }
{
    let sum = name_of_sum(alloc, last)?;
    let compared = applied(alloc, b"declassify(", sum.as_slice(), b" < 1000, {A | B})")?;
    push_binding(text, b"r", compared.as_slice())
}

/// The name of the sum up to a coordinate.
fn name_of_sum(alloc: Global, number: u32) -> Result<Bytes, AllocError>
    ensures { IfOk result (λ text. text ≡ sum_name number) }
{
    if number == 0 {
        name(alloc, b"q", 0)
    } else {
        name(alloc, b"s", number)
    }
}

/// A letter and a number.
fn name(alloc: Global, letter: &[u8], number: u32) -> Result<Bytes, AllocError>
    ensures { IfOk result (λ text. text ≡ named letter.now number) }
{
    let mut text = Bytes::new(alloc);
    text.extend_from_slice(letter)?;
    text.extend_from_slice(Buffer::new().format(u64::from(number)).as_bytes())?;
    Ok(text)
}

/// Three parts, one after another.
fn applied(alloc: Global, first: &[u8], second: &[u8], third: &[u8]) -> Result<Bytes, AllocError>
    ensures { IfOk result (λ text. text ≡ first.now ++ second.now ++ third.now) }
{
    let mut text = Bytes::new(alloc);
    text.extend_from_slice(first)?;
    text.extend_from_slice(second)?;
    text.extend_from_slice(third)?;
    Ok(text)
}

/// Puts a `let` at the end.
fn push_binding(text: &mut Bytes, name: &[u8], expression: &[u8]) -> Result<(), AllocError>
    ensures { OnOk result (text.new ≡ text.old ++ binding name.now expression.now) }
{
    text.extend_from_slice(b"  let ")?;
    text.extend_from_slice(name)?;
    text.extend_from_slice(b" = ")?;
    text.extend_from_slice(expression)?;
    text.extend_from_slice(b";\n")
}

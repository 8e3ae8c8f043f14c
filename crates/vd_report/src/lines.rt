//! The lines that tell words.

ghost use Rattle.std.specs.Prelude.{◌≡◌, ◌++◌, OnOk, IfOk};
ghost use Rattle.vd_report.specs.Lines.{number_field, words_line, output_lines};

use itoa::Buffer;
use std::alloc::{AllocError, Global};
use vd_base::{Bytes, Names, Outputs};

/// One line for each host: its name, how many words it was given, and the words.
pub fn outputs_text(alloc: Global, hosts: &Names, outputs: &Outputs) -> Result<Bytes, AllocError>
    ensures { IfOk result (λ text. text ≡ output_lines hosts.now outputs.now) }
{
    let mut text = Bytes::new(alloc);
    for (host, words) in hosts.iter().zip(outputs.iter()) {
        push_words_line(&mut text, host.as_slice(), words.as_slice())?;
    }
    Ok(text)
}

/// Puts a line at the end: a head, the number of words and the words, parted by single spaces.
pub fn push_words_line(text: &mut Bytes, head: &[u8], words: &[u32]) -> Result<(), AllocError>
    ensures { OnOk result (text.new ≡ text.old ++ words_line head.now words.now) }
{
    text.extend_from_slice(head)?;
    push_number(text, words.len() as u64)?;
    for word in words {
        push_number(text, u64::from(*word))?;
    }
    text.push(b'\n')
}

/// Puts a number at the end, behind a space.
fn push_number(text: &mut Bytes, number: u64) -> Result<(), AllocError>
    ensures { OnOk result (text.new ≡ text.old ++ number_field number) }
{
    text.push(b' ')?;
    text.extend_from_slice(Buffer::new().format(number).as_bytes())
}

//! The words that a host printed, read from a file: what `host` prints, or a line of `replay`.

ghost use Rattle.std.specs.Prelude.{◌≡◌, ◌++◌, [], IfOk, OnOk, slice_index_or};
ghost use Rattle.vd_cmd_plan.specs.Plans.{Checks};
ghost use Rattle.vd_report.specs.LineWords.{line_words, with_word};
ghost use Rattle.vd_cmd_data.specs.Printed as printed;

use std::alloc::{AllocError, Global};
use vd_base::{Bytes, Items, Names, Text, Words, is_space, number};
use vd_cmd_plan::{ReportFault, Status};

/// The status of a file that cannot be reported on.
pub(crate) fn unreported(alloc: Global, file: &str, fault: ReportFault) -> Status
    ensures { printed.IsFaultIn file.now fault result }
{
    match Text::copy_of(alloc, file) {
        Ok(file) => Status::Report(file, fault),
        Err(_) => Status::Memory,
    }
}

/// The words of a text so far, and what has begun of one more.
#[derive(Drop)]
struct Split {
    words: Names,
    begun: Bytes,
}

/// Puts a word at the end, if it has a byte.
fn add_word(words: &mut Names, word: Bytes) -> Result<(), AllocError>
    ensures { OnOk result (words.new ≡ words.old ++ with_word word []) }
{
    if word.as_slice().is_empty() {
        return Ok(());
    }
    words.push(word)
}

/// What there is when one more byte is read.
fn after_byte(alloc: Global, split: Split, byte: u8) -> Result<Split, AllocError>
    ensures { IfOk result (λ next. next ≡ printed.after_byte split byte) }
{
    let Split {
        mut words,
        mut begun,
    } = split;
    if is_space(byte) {
        add_word(&mut words, begun)?;
        return Ok(Split {
            words,
            begun: Bytes::new(alloc),
        });
    }
    begun.push(byte)?;
    Ok(Split { words, begun })
}

/// All words, the last one too.
#[tactic(auto, using(crate::proofs::Splitting::all_split))]
fn words_of(alloc: Global, text: &[u8]) -> Result<Names, AllocError>
    ensures { IfOk result (λ words. words ≡ line_words text.now) }
{
    let mut split = Split {
        words: Names::new(alloc),
        begun: Bytes::new(alloc),
    };
    let mut rest = text;
    'bytes: while let Some((byte, behind)) = rest.split_first() {
        split = after_byte(alloc, split, *byte)?;
        rest = behind;
    }
    let Split { mut words, begun } = split;
    add_word(&mut words, begun)?;
    Ok(words)
}

/// The number that a word is.
#[tactic(auto, using(crate::proofs::Unreported::unreported_there))]
fn number_in(alloc: Global, file: &str, word: &Bytes) -> Result<u32, Status>
    ensures { Checks (printed.number_in file.now word.now) result }
{
    match number(word.as_slice()) {
        Some(found) => Ok(found),
        None => Err(unreported(alloc, file, ReportFault::Text)),
    }
}

/// The numbers that words are.
#[tactic(auto, using(crate::proofs::Turns::none_done, crate::proofs::Turns::next_done, crate::proofs::Turns::all_done))]
fn numbers_in(alloc: Global, file: &str, words: &[Bytes]) -> Result<Words, Status>
    ensures { Checks (printed.numbers_in file.now words.now) result }
{
    let mut numbers = Words::new(alloc);
    for word in words {
        let found = number_in(alloc, file, word)?;
        numbers.push(found)?;
    }
    Ok(numbers)
}

/// As many numbers as a count says, which is one itself.
#[tactic(auto, using(crate::proofs::Unreported::unreported_there))]
fn counted_by(
    alloc: Global,
    file: &str,
    count: Option<u32>,
    words: &[Bytes],
) -> Result<Words, Status>
    ensures { Checks (printed.counted_by file.now count words.now) result }
{
    let Some(count) = count else {
        return Err(unreported(alloc, file, ReportFault::Text));
    };
    let count = count as usize;
    if count > words.len() {
        return Err(unreported(alloc, file, ReportFault::Cut));
    }
    numbers_in(alloc, file, &words[..count])
}

/// How many numbers there are, and these.
#[tactic(auto, using(crate::proofs::Unreported::unreported_there))]
fn counted_in(alloc: Global, file: &str, words: &[Bytes]) -> Result<Words, Status>
    ensures { Checks (printed.counted_in file.now words.now) result }
{
    match words {
        [] => Err(unreported(alloc, file, ReportFault::Cut)),
        [count, numbers @ ..] => counted_by(alloc, file, number(count.as_slice()), numbers),
    }
}

/// What stands in the line of a host behind its name: that it has ended, and its words.
#[tactic(auto, using(crate::proofs::Unreported::unreported_there))]
fn state_in(alloc: Global, file: &str, words: &[Bytes]) -> Result<Words, Status>
    ensures { Checks (printed.state_in file.now words.now) result }
{
    match words {
        [] => Err(unreported(alloc, file, ReportFault::Cut)),
        [state, behind @ ..] => {
            if state.as_slice() == b"ended".as_slice() {
                counted_in(alloc, file, behind)
            } else {
                Err(unreported(alloc, file, ReportFault::Cut))
            }
        }
    }
}

/// Whether a host's line begins with a word: its name, and no number behind it.
fn begins_line(host: &[u8], word: &[u8], behind: &[Bytes]) -> bool
    ensures { result ≡ printed.begins_line host.now word.now behind.now }
{
    let is_told = match behind {
        [] => true,
        [next, ..] => number(next.as_slice()).is_none(),
    };
    word == host && is_told
}

/// The word at a place, empty where there is none.
fn word_at(words: &[Bytes], place: usize) -> &[u8]
    ensures { result.now ≡ slice_index_or words.now place [] }
{
    match words.get(place) {
        Some(word) => word.as_slice(),
        None => &[],
    }
}

/// Whether words begin as what `host` prints.
fn is_begun(words: &[Bytes]) -> bool
    ensures { result ≡ printed.is_begun words.now }
{
    word_at(words, 0) == b"listening".as_slice()
}

/// Whether words are all that `host` prints: `listening` first, and `ended` last.
fn is_whole(words: &[Bytes]) -> bool
    ensures { result ≡ printed.is_whole words.now }
{
    is_begun(words) && word_at(words, words.len().saturating_sub(1)) == b"ended".as_slice()
}

/// Words without the first and the last.
fn between(words: &[Bytes]) -> &[Bytes]
    ensures { result.now ≡ printed.between words.now }
{
    let front = &words[..words.len().saturating_sub(1)];
    match front {
        [_, middle @ ..] => middle,
        [] => &[],
    }
}

/// The fault of words among which there is no line of the host.
fn absent(words: &[Bytes]) -> ReportFault
    ensures { result ≡ printed.absent words.now }
{
    if is_begun(words) {
        ReportFault::Cut
    } else {
        ReportFault::Text
    }
}

/// The words in the line of the host, or this fault where it has none.
#[tactic(auto, using(crate::proofs::Unreported::unreported_there, crate::proofs::Splitting::checks_as))]
fn lined(
    alloc: Global,
    file: &str,
    host: &[u8],
    words: &[Bytes],
    fault: ReportFault,
) -> Result<Words, Status>
    ensures { Checks (printed.lined file.now host.now fault words.now) result }
{
    let mut rest = words;
    'words: while let Some((word, behind)) = rest.split_first() {
        if begins_line(host, word.as_slice(), behind) {
            return state_in(alloc, file, behind);
        }
        rest = behind;
    }
    Err(unreported(alloc, file, fault))
}

/// The words that the host printed, by the words of a file.
fn told_in(alloc: Global, file: &str, host: &[u8], words: &[Bytes]) -> Result<Words, Status>
    ensures { Checks (printed.told_in file.now host.now words.now) result }
{
    if is_whole(words) {
        numbers_in(alloc, file, between(words))
    } else {
        lined(alloc, file, host, words, absent(words))
    }
}

/// Whether the last line of a text is whole.
fn is_ended(bytes: &[u8]) -> bool
    ensures { result ≡ printed.is_ended bytes.now }
{
    match bytes.get(bytes.len().saturating_sub(1)) {
        Some(last) => *last == b'\n',
        None => false,
    }
}

/// The words that the host of this name printed, by the bytes of a file.
#[tactic(auto, using(crate::proofs::Unreported::unreported_there))]
pub(crate) fn printed_words(
    alloc: Global,
    file: &str,
    host: &str,
    bytes: &[u8],
) -> Result<Words, Status>
    ensures { Checks (printed.printed_words file.now host.now bytes.now) result }
{
    if !is_ended(bytes) {
        return Err(unreported(alloc, file, ReportFault::Cut));
    }
    let words = words_of(alloc, bytes)?;
    told_in(alloc, file, host.as_bytes(), words.as_slice())
}

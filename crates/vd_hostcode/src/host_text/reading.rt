//! The reader of the lines of host programs.

ghost use Rattle.std.specs.Prelude.{◌≡◌, IfOk, length, map, drop};
ghost use Rattle.vd_base_codec.specs.Reading.{Gives, GivesOrMemory, each_at};
ghost use Rattle.vd_execution.specs.Text.{register};
ghost use Rattle.vd_hostcode.specs.Lines as lines;
ghost use Rattle.vd_hostcode.specs.Reading as reading;

use crate::host_text::blocks::{Arrays, Outline};
use crate::host_text::words::{Word, spelling};
use std::alloc::{AllocError, Global};
use vd_base::{HostId, Items, Words};
use vd_base_codec::{CodecFault, Cursor, Stopped};
use vd_execution::{Action, Binary, Instr, Reg};

/// All words.
const WORDS: [Word; 36] = [
    Word::Const,
    Word::Copy,
    Word::Apply(Binary::Add),
    Word::Apply(Binary::Sub),
    Word::Apply(Binary::Mul),
    Word::Apply(Binary::Div),
    Word::Apply(Binary::Rem),
    Word::Apply(Binary::And),
    Word::Apply(Binary::Or),
    Word::Apply(Binary::Xor),
    Word::Apply(Binary::Eq),
    Word::Apply(Binary::Ne),
    Word::Apply(Binary::Lt),
    Word::Apply(Binary::Le),
    Word::Apply(Binary::Min),
    Word::Apply(Binary::Max),
    Word::Shl,
    Word::Shr,
    Word::Mux,
    Word::Own,
    Word::Triple,
    Word::Bits,
    Word::Pair,
    Word::Input,
    Word::Print,
    Word::Hash,
    Word::Same,
    Word::Zero,
    Word::Get,
    Word::Put,
    Word::Send,
    Word::Recv,
    Word::If,
    Word::Else,
    Word::For,
    Word::End,
];

/// The lines up to the one that ends the program, as instructions.
pub(crate) fn read_code(
    alloc: Global,
    cursor: &mut Cursor,
    arrays: Arrays,
) -> Result<Items<Instr>, CodecFault>
    ensures { GivesOrMemory result cursor.new (reading.code_at (lines.start arrays) cursor.old) }
{
    let mut outline = Outline::new(alloc, arrays);
    let mut code = Items::new(alloc);
    'lines: loop {
        let (word, instruction) = read_next(alloc, cursor, &outline)?;
        if outline.is_last(word) {
            return Ok(code);
        }
        outline.pass(word)?;
        code.push(instruction)?;
    }
}

/// A line, with its word.
fn read_next(
    alloc: Global,
    cursor: &mut Cursor,
    outline: &Outline,
) -> Result<(Word, Instr), CodecFault>
    ensures { GivesOrMemory result cursor.new (reading.next_at outline.now cursor.old) }
{
    let word = read_word(cursor, outline)?;
    let instruction = read_line(alloc, cursor, word)?;
    Ok((word, instruction))
}

/// The word with which the next line begins.
#[tactic(auto, unfolding(crate::specs::Reading::all_words))]
fn read_word(cursor: &mut Cursor, outline: &Outline) -> Result<Word, Stopped>
    ensures { Gives result cursor.new (reading.word_at outline.now cursor.old) }
{
    read_among(cursor, outline, &WORDS)
}

/// The first of these words that may come and that stands here.
fn read_among(cursor: &mut Cursor, outline: &Outline, words: &[Word]) -> Result<Word, Stopped>
    ensures { Gives result cursor.new (reading.among (lines.allows outline.now) words.now 0 cursor.old) }
{
    let mut far = 0;
    for word in words {
        if outline.allows(*word) {
            let text = spelling(*word);
            let shared = alike(text, cursor.as_slice());
            if shared == text.len() {
                cursor.skip(shared);
                return Ok(*word);
            }
            far = far.max(shared);
        }
    }
    cursor.skip(far);
    Err(Stopped)
}

/// How many bytes two texts begin with alike.
#[tactic(auto, using(crate::proofs::HostTextSteps::alike_next, crate::proofs::HostTextSteps::alike_stops, crate::proofs::HostTextSteps::alike_word_over, crate::proofs::HostTextSteps::alike_bytes_over))]
fn alike(word: &[u8], bytes: &[u8]) -> usize
    ensures { result ≡ reading.alike word.now bytes.now }
{
    let mut count = 0;
    'places: while count < word.len() && count < bytes.len() && word[count] == bytes[count] {
        count += 1;
    }
    count
}

/// The rest of a line.
#[tactic(auto, unfolding(crate::specs::Reading::instr_at))]
fn read_line(alloc: Global, cursor: &mut Cursor, word: Word) -> Result<Instr, CodecFault>
    ensures { GivesOrMemory result cursor.new (reading.instr_at word cursor.old) }
{
    let numbers = read_numbers(alloc, cursor, word)?;
    cursor.byte(b'\n')?;
    Ok(instr_of(alloc, word, numbers.as_slice())?)
}

/// The numbers of a line.
#[tactic(auto, unfolding(crate::specs::Reading::numbers_at))]
fn read_numbers(alloc: Global, cursor: &mut Cursor, word: Word) -> Result<Words, CodecFault>
    ensures { GivesOrMemory result cursor.new (reading.numbers_at word cursor.old) }
{
    let mut numbers = read_each(alloc, cursor, arity(word))?;
    if is_packet(word) {
        let more = read_many(alloc, cursor)?;
        numbers.append(more)?;
    }
    Ok(numbers)
}

/// A number behind a space.
fn read_number(cursor: &mut Cursor) -> Result<u32, Stopped>
    ensures { Gives result cursor.new (reading.number_at cursor.old) }
{
    cursor.field(u32::MAX)
}

/// So many numbers.
fn read_each(alloc: Global, cursor: &mut Cursor, count: u8) -> Result<Words, CodecFault>
    ensures { GivesOrMemory result cursor.new (each_at reading.number_at count cursor.old) }
{
    let mut numbers = Items::new(alloc);
    for _ in 0..count {
        let number = read_number(cursor)?;
        numbers.push(number)?;
    }
    Ok(numbers)
}

/// Numbers as far as they go.
fn read_many(alloc: Global, cursor: &mut Cursor) -> Result<Words, CodecFault>
    ensures { GivesOrMemory result cursor.new (reading.many_at (length cursor.old) cursor.old) }
{
    let mut numbers = Items::new(alloc);
    'numbers: while stands_at(cursor, b' ') {
        let number = read_number(cursor)?;
        numbers.push(number)?;
    }
    Ok(numbers)
}

/// Whether this byte is the next one.
pub(crate) fn stands_at(cursor: &Cursor, byte: u8) -> bool
    ensures { result ≡ reading.starts_with byte cursor.now }
{
    cursor.first() == Some(byte)
}

/// How many numbers stand behind a word, at least.
fn arity(word: Word) -> u8
    ensures { result ≡ lines.arity word }
{
    match word {
        Word::Else | Word::End => 0,
        Word::Own | Word::Input | Word::Print | Word::If => 1,
        Word::Const | Word::Copy | Word::Same | Word::Zero => 2,
        Word::Send | Word::Recv | Word::For => 2,
        Word::Apply(_) | Word::Shl | Word::Shr | Word::Pair | Word::Hash => 3,
        Word::Mux | Word::Triple | Word::Bits | Word::Get | Word::Put => 4,
    }
}

/// Whether more numbers may stand behind a word.
fn is_packet(word: Word) -> bool
    ensures { result ≡ lines.is_packet word }
{
    matches!(word, Word::Send | Word::Recv)
}

/// A number of a line.
fn at(numbers: &[u32], place: usize) -> u32
    ensures { result ≡ reading.at numbers.now place }
{
    numbers.get(place).copied().unwrap_or(0)
}

/// A register of a line.
fn register(numbers: &[u32], place: usize) -> Reg
    ensures { result ≡ reading.register_in numbers.now place }
{
    Reg(at(numbers, place))
}

/// The peer of a line. No host has so large a number as 255, which stands for those that are too large.
fn peer(numbers: &[u32]) -> HostId
    ensures { result ≡ reading.peer (reading.at numbers.now 0) }
{
    HostId(u8::try_from(at(numbers, 0)).unwrap_or(u8::MAX))
}

/// The registers of a packet.
fn registers(alloc: Global, numbers: &[u32]) -> Result<Items<Reg>, AllocError>
    ensures { IfOk result (λ list. list ≡ map register (drop 1 numbers.now)) }
{
    let mut registers = Items::new(alloc);
    for place in 1..numbers.len() {
        registers.push(Reg(numbers[place]))?;
    }
    Ok(registers)
}

/// The instruction of a line.
#[tactic(auto, unfolding(crate::specs::Reading::instr_of))]
fn instr_of(alloc: Global, word: Word, numbers: &[u32]) -> Result<Instr, AllocError>
    ensures { IfOk result (λ instruction. instruction ≡ reading.instr_of word numbers.now) }
{
    let p = peer(numbers);
    let a = register(numbers, 0);
    let b = register(numbers, 1);
    let c = register(numbers, 2);
    let d = register(numbers, 3);
    match word {
        Word::Const => Ok(Instr::Do(Action::Const(a, b.0))),
        Word::Copy => Ok(Instr::Do(Action::Copy(a, b))),
        Word::Apply(operation) => Ok(Instr::Do(Action::Apply(operation, a, b, c))),
        Word::Shl => Ok(Instr::Do(Action::Shl(a, b, c.0))),
        Word::Shr => Ok(Instr::Do(Action::Shr(a, b, c.0))),
        Word::Mux => Ok(Instr::Do(Action::Mux(a, b, c, d))),
        Word::Own => Ok(Instr::Do(Action::Own(a))),
        Word::Triple => Ok(Instr::Do(Action::Triple(p, b, c, d))),
        Word::Bits => Ok(Instr::Do(Action::Bits(p, b, c, d))),
        Word::Pair => Ok(Instr::Do(Action::Pair(p, b, c))),
        Word::Input => Ok(Instr::Do(Action::Input(a))),
        Word::Print => Ok(Instr::Do(Action::Print(a))),
        Word::Hash => Ok(Instr::Do(Action::Hash(a, b, c))),
        Word::Same => Ok(Instr::Do(Action::Same(a, b))),
        Word::Zero => Ok(Instr::Do(Action::Zero(a, b.0))),
        Word::Get => Ok(Instr::Do(Action::Get(a, b, c.0, d))),
        Word::Put => Ok(Instr::Do(Action::Put(a, b.0, c, d))),
        Word::Send => Ok(Instr::Send(p, registers(alloc, numbers)?)),
        Word::Recv => Ok(Instr::Recv(p, registers(alloc, numbers)?)),
        Word::If => Ok(Instr::If(a)),
        Word::Else => Ok(Instr::Else),
        Word::For => Ok(Instr::For(a, b.0)),
        Word::End => Ok(Instr::End),
    }
}

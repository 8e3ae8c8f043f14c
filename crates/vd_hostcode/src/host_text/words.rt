//! The words with which instructions begin.

ghost use Rattle.std.specs.Prelude.{◌≡◌};
ghost use Rattle.vd_hostcode.specs.Words as words;

use vd_execution::{Action, Binary, Instr};

/// The word with which an instruction begins.
#[derive(Clone, Copy, PartialEq, Eq)]
pub enum Word {
    Const,
    Copy,
    Apply(Binary),
    Shl,
    Shr,
    Mux,
    Own,
    Triple,
    Bits,
    Pair,
    Input,
    Print,
    Hash,
    Same,
    Zero,
    Get,
    Put,
    Send,
    Recv,
    If,
    Else,
    For,
    End,
}

/// How the word of an operation is written.
fn binary_spelling(operation: Binary) -> &'static [u8]
    ensures { result.now ≡ words.binary_spelling operation }
{
    match operation {
        Binary::Add => b"add",
        Binary::Sub => b"sub",
        Binary::Mul => b"mul",
        Binary::Div => b"div",
        Binary::Rem => b"rem",
        Binary::And => b"and",
        Binary::Or => b"or",
        Binary::Xor => b"xor",
        Binary::Eq => b"eq",
        Binary::Ne => b"ne",
        Binary::Lt => b"lt",
        Binary::Le => b"le",
        Binary::Min => b"min",
        Binary::Max => b"max",
    }
}

/// How a word is written.
pub(crate) fn spelling(word: Word) -> &'static [u8]
    ensures { result.now ≡ words.spelling word }
{
    match word {
        Word::Const => b"const",
        Word::Copy => b"copy",
        Word::Apply(operation) => binary_spelling(operation),
        Word::Shl => b"shl",
        Word::Shr => b"shr",
        Word::Mux => b"mux",
        Word::Own => b"own",
        Word::Triple => b"triple",
        Word::Bits => b"bits",
        Word::Pair => b"pair",
        Word::Input => b"input",
        Word::Print => b"print",
        Word::Hash => b"hash",
        Word::Same => b"same",
        Word::Zero => b"zero",
        Word::Get => b"get",
        Word::Put => b"put",
        Word::Send => b"send",
        Word::Recv => b"recv",
        Word::If => b"if",
        Word::Else => b"else",
        Word::For => b"for",
        Word::End => b"end",
    }
}

/// The word of what a host does by itself.
fn action_word(action: &Action) -> Word
    ensures { result ≡ words.action_word action.now }
{
    match *action {
        Action::Const(_, _) => Word::Const,
        Action::Copy(_, _) => Word::Copy,
        Action::Apply(operation, _, _, _) => Word::Apply(operation),
        Action::Shl(_, _, _) => Word::Shl,
        Action::Shr(_, _, _) => Word::Shr,
        Action::Mux(_, _, _, _) => Word::Mux,
        Action::Own(_) => Word::Own,
        Action::Triple(_, _, _, _) => Word::Triple,
        Action::Bits(_, _, _, _) => Word::Bits,
        Action::Pair(_, _, _) => Word::Pair,
        Action::Input(_) => Word::Input,
        Action::Print(_) => Word::Print,
        Action::Hash(_, _, _) => Word::Hash,
        Action::Same(_, _) => Word::Same,
        Action::Zero(_, _) => Word::Zero,
        Action::Get(_, _, _, _) => Word::Get,
        Action::Put(_, _, _, _) => Word::Put,
    }
}

/// The word with which an instruction begins.
pub(crate) fn word_of(instruction: &Instr) -> Word
    ensures { result ≡ words.word_of instruction.now }
{
    match instruction {
        Instr::Do(action) => action_word(action),
        Instr::Send(_, _) => Word::Send,
        Instr::Recv(_, _) => Word::Recv,
        Instr::If(_) => Word::If,
        Instr::Else => Word::Else,
        Instr::For(_, _) => Word::For,
        Instr::End => Word::End,
    }
}

/// Whether it is one of the three instructions on arrays.
pub(crate) fn is_array(instruction: &Instr) -> bool
    ensures { result ≡ words.is_array instruction.now }
{
    matches!(
        instruction,
        Instr::Do(Action::Zero(_, _))
            | Instr::Do(Action::Get(_, _, _, _))
            | Instr::Do(Action::Put(_, _, _, _))
    )
}

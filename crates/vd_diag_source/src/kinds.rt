//! Sentences on kinds that do not fit. `word` is what stands at the fault.

ghost use Rattle.std.specs.Prelude.{◌≡◌, IfOk};
ghost use Rattle.vd_diag_source.specs.Kinds as kinds;

use itoa::Buffer;
use std::alloc::{AllocError, Global};
use vd_base::{Bytes, Kind};
use vd_diag::{in_table, three};
use vd_resolve::Met;

/// What an operator, `min`, `max` or `mux` takes.
const OPERAND_TABLE: [(&[u8], &[u8]); 21] = [
    (b"mux", b"`mux` takes a bool and two values of one kind"),
    (b"min", b"`min` takes two words"),
    (b"max", b"`max` takes two words"),
    (b"!", b"`!` takes a bool"),
    (b"~", b"`~` takes a word"),
    (b"+", b"`+` takes two words"),
    (b"-", b"`-` takes two words"),
    (b"*", b"`*` takes two words"),
    (b"/", b"`/` takes two words"),
    (b"%", b"`%` takes two words"),
    (b"<<", b"`<<` shifts a word by at most 31 bits"),
    (b">>", b"`>>` shifts a word by at most 31 bits"),
    (b"<", b"`<` compares two words"),
    (b"<=", b"`<=` compares two words"),
    (b">", b"`>` compares two words"),
    (b">=", b"`>=` compares two words"),
    (b"==", b"`==` compares two words"),
    (b"!=", b"`!=` compares two words"),
    (b"&", b"`&` takes two words or two bools"),
    (b"|", b"`|` takes two words or two bools"),
    (b"^", b"`^` takes two words or two bools"),
];

/// What a value of this kind is called.
fn kind_phrase(kind: Kind) -> &'static [u8]
    ensures { result.now ≡ kinds.kind_phrase kind }
{
    match kind {
        Kind::Word => b"a word",
        Kind::Bool => b"a bool",
    }
}

/// What a value of the other kind is called.
fn other_phrase(kind: Kind) -> &'static [u8]
    ensures { result.now ≡ kinds.other_phrase kind }
{
    match kind {
        Kind::Word => b"a bool",
        Kind::Bool => b"a word",
    }
}

/// What the operator or the word takes.
#[tactic(auto, unfolding(crate::specs::Kinds::operand_sentence, crate::specs::Kinds::operand_table, crate::specs::Kinds::other_operand))]
fn operand_sentence(word: &[u8]) -> &'static [u8]
    ensures { result.now ≡ kinds.operand_sentence word.now }
{
    in_table(&OPERAND_TABLE, word, b"this takes values of other kinds")
}

/// Of an operator before an operand of this kind.
fn behind_sentence(alloc: Global, word: &[u8], kind: Kind) -> Result<Bytes, AllocError>
    ensures { IfOk result (λ text. text ≡ kinds.behind_sentence word.now kind) }
{
    three(
        alloc,
        operand_sentence(word),
        b"; behind it stands ",
        kind_phrase(kind),
    )
}

/// Of an operator between operands of these kinds.
fn sides_sentence(alloc: Global, word: &[u8], left: Kind, right: Kind) -> Result<Bytes, AllocError>
    ensures { IfOk result (λ text. text ≡ kinds.sides_sentence word.now left right) }
{
    let pair = three(
        alloc,
        kind_phrase(left),
        b", and on its right ",
        kind_phrase(right),
    )?;
    three(
        alloc,
        operand_sentence(word),
        b"; on its left stands ",
        pair.as_slice(),
    )
}

/// Of a shift of a value of this kind by so many bits.
fn shifted_sentence(alloc: Global, word: &[u8], kind: Kind, bits: u32) -> Result<Bytes, AllocError>
    ensures { IfOk result (λ text. text ≡ kinds.shifted_sentence word.now kind bits) }
{
    let mut buffer = Buffer::new();
    let bits = buffer.format(bits).as_bytes();
    let shifted = three(alloc, kind_phrase(kind), b" is shifted by ", bits)?;
    three(
        alloc,
        operand_sentence(word),
        b"; here ",
        shifted.as_slice(),
    )
}

/// Of `min` or `max` of values of these kinds.
fn given_sentence(alloc: Global, word: &[u8], left: Kind, right: Kind) -> Result<Bytes, AllocError>
    ensures { IfOk result (λ text. text ≡ kinds.given_sentence word.now left right) }
{
    let pair = three(alloc, kind_phrase(left), b" and ", kind_phrase(right))?;
    three(
        alloc,
        operand_sentence(word),
        b"; it is given ",
        pair.as_slice(),
    )
}

/// Of `mux` of values of these kinds.
fn chosen_sentence(
    alloc: Global,
    word: &[u8],
    test: Kind,
    left: Kind,
    right: Kind,
) -> Result<Bytes, AllocError>
    ensures { IfOk result (λ text. text ≡ kinds.chosen_sentence word.now test left right) }
{
    let values = three(alloc, kind_phrase(left), b" and ", kind_phrase(right))?;
    let all = three(alloc, kind_phrase(test), b", ", values.as_slice())?;
    three(
        alloc,
        operand_sentence(word),
        b"; it is given ",
        all.as_slice(),
    )
}

/// Of the name of an array where a value is to stand.
fn whole_array_sentence(alloc: Global, word: &[u8]) -> Result<Bytes, AllocError>
    ensures { IfOk result (λ text. text ≡ kinds.whole_array_sentence word.now) }
{
    three(
        alloc,
        b"`",
        word,
        b"` is an array; an element of it, with an index in `[` and `]`, can stand here",
    )
}

/// Of a name with an index that is no array.
fn no_array_sentence(alloc: Global, word: &[u8]) -> Result<Bytes, AllocError>
    ensures { IfOk result (λ text. text ≡ kinds.no_array_sentence word.now) }
{
    three(
        alloc,
        b"`",
        word,
        b"` is no array, and only an array has an index",
    )
}

/// Of an array with a bool as index.
fn bool_index_sentence(alloc: Global, word: &[u8]) -> Result<Bytes, AllocError>
    ensures { IfOk result (λ text. text ≡ kinds.bool_index_sentence word.now) }
{
    three(
        alloc,
        b"the index of `",
        word,
        b"` is a bool, and an index is a word",
    )
}

/// Of the argument with this number, which is of this kind and should be of the other.
fn argument_sentence(
    alloc: Global,
    word: &[u8],
    number: usize,
    kind: Kind,
) -> Result<Bytes, AllocError>
    ensures { IfOk result (λ text. text ≡ kinds.argument_sentence word.now number kind) }
{
    let mut buffer = Buffer::new();
    let number = buffer.format(number as u64).as_bytes();
    let argument = three(alloc, b"argument ", number, b" of `")?;
    let is = three(
        alloc,
        b"` is ",
        kind_phrase(kind),
        b", and the function takes ",
    )?;
    let takes = three(alloc, is.as_slice(), other_phrase(kind), b" there")?;
    three(alloc, argument.as_slice(), word, takes.as_slice())
}

/// Of a name that is given another value and is no `var`.
fn no_variable_sentence(alloc: Global, word: &[u8]) -> Result<Bytes, AllocError>
    ensures { IfOk result (λ text. text ≡ kinds.no_variable_sentence word.now) }
{
    three(
        alloc,
        b"`",
        word,
        b"` is no `var`, and only a `var` is given another value",
    )
}

/// Of a name that is given a value of this kind and takes the other.
fn value_sentence(alloc: Global, word: &[u8], kind: Kind) -> Result<Bytes, AllocError>
    ensures { IfOk result (λ text. text ≡ kinds.value_sentence word.now kind) }
{
    let takes = three(alloc, b"`", word, b"` takes ")?;
    let given = three(alloc, b", and is given ", kind_phrase(kind), b" here")?;
    three(
        alloc,
        takes.as_slice(),
        other_phrase(kind),
        given.as_slice(),
    )
}

/// Of a guard of this kind.
fn guard_sentence(alloc: Global, kind: Kind) -> Result<Bytes, AllocError>
    ensures { IfOk result (λ text. text ≡ kinds.guard_sentence kind) }
{
    three(
        alloc,
        b"the guard of an `if` is a bool, and ",
        kind_phrase(kind),
        b" stands here",
    )
}

/// Of a `return` of a value of this kind, where the function gives the other.
fn returned_sentence(alloc: Global, kind: Kind) -> Result<Bytes, AllocError>
    ensures { IfOk result (λ text. text ≡ kinds.returned_sentence kind) }
{
    let gives = three(alloc, b"the function gives ", other_phrase(kind), b", and ")?;
    three(alloc, gives.as_slice(), kind_phrase(kind), b" is returned")
}

/// What is said of what met at this word.
pub(crate) fn kind_sentence(alloc: Global, word: &[u8], met: Met) -> Result<Bytes, AllocError>
    ensures { IfOk result (λ text. text ≡ kinds.kind_sentence word.now met) }
{
    match met {
        Met::WholeArray => whole_array_sentence(alloc, word),
        Met::NoArray => no_array_sentence(alloc, word),
        Met::BoolIndex => bool_index_sentence(alloc, word),
        Met::Argument(number, kind) => argument_sentence(alloc, word, number, kind),
        Met::Behind(kind) => behind_sentence(alloc, word, kind),
        Met::Sides(left, right) => sides_sentence(alloc, word, left, right),
        Met::Shifted(kind, bits) => shifted_sentence(alloc, word, kind, bits),
        Met::Given(left, right) => given_sentence(alloc, word, left, right),
        Met::Chosen(test, left, right) => chosen_sentence(alloc, word, test, left, right),
        Met::NoVariable => no_variable_sentence(alloc, word),
        Met::Value(kind) => value_sentence(alloc, word, kind),
        Met::Guard(kind) => guard_sentence(alloc, kind),
        Met::Returned(kind) => returned_sentence(alloc, kind),
    }
}

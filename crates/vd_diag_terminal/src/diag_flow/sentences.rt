//! The sentences, one for each origin of a check. `own` is the formula that fails to act, and `asked` the one that it would
//! have to act for, both as text.

ghost use Rattle.std.specs.Prelude.{◌≡◌, IfOk};
ghost use Rattle.vd_diag_terminal.specs.FlowSentences as sentences;

use crate::diag_flow::phrases::{guarded, vouched};
use std::alloc::{AllocError, Global};
use vd_base::{Bytes, Names};
use vd_constraints::{Check, Origin};
use vd_diag::three;
use vd_formula::Formula;
use vd_report::{formula_text, name_of};

/// What lets a value be read.
fn lowered(alloc: Global, own: &[u8]) -> Result<Bytes, AllocError>
    ensures { IfOk result (λ text. text ≡ sentences.lowered own.now) }
{
    three(
        alloc,
        b"; `declassify(.., {",
        own,
        b"})` lets it be read, where those who answer for it may decide so",
    )
}

/// What lets it be known that a place is reached.
fn lowered_guard(alloc: Global, own: &[u8]) -> Result<Bytes, AllocError>
    ensures { IfOk result (λ text. text ≡ sentences.lowered_guard own.now) }
{
    three(
        alloc,
        b"; a guard in `declassify(.., {",
        own,
        b"})` lets it be known, where those who answer for the guard may decide so",
    )
}

/// The same, or a word that is made whatever the guard is and told outside of the branch.
fn told_outside(alloc: Global, own: &[u8]) -> Result<Bytes, AllocError>
    ensures { IfOk result (λ text. text ≡ sentences.told_outside own.now) }
{
    let mend = lowered_guard(alloc, own)?;
    three(
        alloc,
        mend.as_slice(),
        b"; outside of the branch, `mux` gives what can be output",
        b"",
    )
}

/// What makes a value one that these answer for.
fn raised(alloc: Global, asked: &[u8]) -> Result<Bytes, AllocError>
    ensures { IfOk result (λ text. text ≡ sentences.raised asked.now) }
{
    three(
        alloc,
        b"; `endorse(.., {",
        asked,
        b"})` accepts a value as it is",
    )
}

/// Of a host that is told what it may not read.
fn output_sentence(
    alloc: Global,
    host: &[u8],
    own: &[u8],
    asked: &[u8],
) -> Result<Bytes, AllocError>
    ensures { IfOk result (λ text. text ≡ sentences.output_sentence host.now own.now asked.now) }
{
    let who = three(alloc, b"host ", host, b" may not read ")?;
    let what = guarded(alloc, asked)?;
    let mend = lowered(alloc, own)?;
    three(alloc, who.as_slice(), what.as_slice(), mend.as_slice())
}

/// Of a host that learns by what it is told that this place is reached.
fn told_sentence(alloc: Global, host: &[u8], own: &[u8], asked: &[u8]) -> Result<Bytes, AllocError>
    ensures { IfOk result (λ text. text ≡ sentences.told_sentence host.now own.now asked.now) }
{
    let who = three(
        alloc,
        b"host ",
        host,
        b" may not know that this is reached, which tells ",
    )?;
    let what = guarded(alloc, asked)?;
    let mend = told_outside(alloc, own)?;
    three(alloc, who.as_slice(), what.as_slice(), mend.as_slice())
}

/// Of a host that learns by being asked that this place is reached.
fn asked_sentence(alloc: Global, host: &[u8], own: &[u8], asked: &[u8]) -> Result<Bytes, AllocError>
    ensures { IfOk result (λ text. text ≡ sentences.asked_sentence host.now own.now asked.now) }
{
    let who = three(
        alloc,
        b"host ",
        host,
        b" may not know that it is asked here, which tells ",
    )?;
    let what = guarded(alloc, asked)?;
    let mend = lowered_guard(alloc, own)?;
    three(alloc, who.as_slice(), what.as_slice(), mend.as_slice())
}

/// Of a host that hands in what it does not answer for.
fn input_sentence(alloc: Global, host: &[u8], asked: &[u8]) -> Result<Bytes, AllocError>
    ensures { IfOk result (λ text. text ≡ sentences.input_sentence host.now asked.now) }
{
    let who = three(alloc, b"host ", host, b" does not answer for ")?;
    let what = vouched(alloc, asked)?;
    let mend = raised(alloc, asked)?;
    three(alloc, who.as_slice(), what.as_slice(), mend.as_slice())
}

/// Of an `endorse` to those who do not answer for the value.
fn endorse_sentence(alloc: Global, own: &[u8], asked: &[u8]) -> Result<Bytes, AllocError>
    ensures { IfOk result (λ text. text ≡ sentences.endorse_sentence own.now asked.now) }
{
    let who = three(
        alloc,
        b"`{",
        own,
        b"}` of this `endorse` does not answer for ",
    )?;
    let what = vouched(alloc, asked)?;
    let mend = three(alloc, b"; `{", asked, b"}` would")?;
    three(alloc, who.as_slice(), what.as_slice(), mend.as_slice())
}

/// Of a written label whose readers may not read what stands there.
fn readers_sentence(alloc: Global, own: &[u8], asked: &[u8]) -> Result<Bytes, AllocError>
    ensures { IfOk result (λ text. text ≡ sentences.readers_sentence own.now asked.now) }
{
    let who = three(
        alloc,
        b"the written confidentiality `",
        own,
        b"` may not read ",
    )?;
    let what = guarded(alloc, asked)?;
    let mend = lowered(alloc, own)?;
    three(alloc, who.as_slice(), what.as_slice(), mend.as_slice())
}

/// Of a written label by which those answer who do not answer for what stands there.
fn answerers_sentence(alloc: Global, own: &[u8], asked: &[u8]) -> Result<Bytes, AllocError>
    ensures { IfOk result (λ text. text ≡ sentences.answerers_sentence own.now asked.now) }
{
    let who = three(
        alloc,
        b"the written integrity `",
        own,
        b"` does not answer for ",
    )?;
    let what = vouched(alloc, asked)?;
    let mend = raised(alloc, asked)?;
    three(alloc, who.as_slice(), what.as_slice(), mend.as_slice())
}

/// What is said of a check that fails: of what asks for it, of its constant and of its part's formula, both as text.
fn sentence_of(
    alloc: Global,
    hosts: &Names,
    origin: Origin,
    own: &[u8],
    asked: &[u8],
) -> Result<Bytes, AllocError>
    ensures { IfOk result (λ text. text ≡ sentences.sentence_of hosts.now origin own.now asked.now) }
{
    match origin {
        Origin::Input(host) => input_sentence(alloc, name_of(hosts, usize::from(host.0)), asked),
        Origin::Asked(host) => asked_sentence(
            alloc,
            name_of(hosts, usize::from(host.0)),
            own,
            asked,
        ),
        Origin::Endorse => endorse_sentence(alloc, own, asked),
        Origin::Output(host) => output_sentence(
            alloc,
            name_of(hosts, usize::from(host.0)),
            own,
            asked,
        ),
        Origin::Told(host) => told_sentence(alloc, name_of(hosts, usize::from(host.0)), own, asked),
        Origin::Readers => readers_sentence(alloc, own, asked),
        Origin::Answerers => answerers_sentence(alloc, own, asked),
    }
}

/// What is said of a check that fails: of what asks for it, of its constant and of its part's formula.
pub(crate) fn flow_sentence(
    alloc: Global,
    principals: &Names,
    hosts: &Names,
    check: &Check,
    origin: Origin,
    asked: &Formula,
) -> Result<Bytes, AllocError>
    ensures { IfOk result (λ text. text ≡ sentences.flow_sentence principals.now hosts.now check.now origin asked.now) }
{
    let own = formula_text(alloc, principals, &check.constant)?;
    let asked = formula_text(alloc, principals, asked)?;
    sentence_of(alloc, hosts, origin, own.as_slice(), asked.as_slice())
}

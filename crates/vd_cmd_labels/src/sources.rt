//! The source of a command.

ghost use Rattle.std.specs.Prelude.{◌≡◌, ◌≢◌, ◌≤◌, ℕ, List, length, Ok, IfOk};
ghost use Rattle.vd_base.specs.Limits.{most_source_bytes};
ghost use Rattle.vd_core.specs.Named.{HasNames};
ghost use Rattle.vd_semantics.specs.SourceMeaning.{host_names};
ghost use Rattle.vd_elaborate.specs.Normal.{normal_form};
ghost use Rattle.vd_elaborate.specs.Outputs.{KeepsOutputs};
ghost use Rattle.vd_parser.specs.Outcomes.{IsParse};
ghost use Rattle.vd_parser.specs.declared.fault.ParseFault.TheVariants as parse_fault;
ghost use Rattle.vd_cmd_plan.specs.Held.{Finds};
ghost use Rattle.vd_cmd_plan.specs.Plans.{Checks, ExecutesStep};
ghost use Rattle.vd_cmd_labels.specs.Outcomes.{TextOutcomes};
ghost use Rattle.vd_cmd_labels.specs.Sources.{HoldsSource, HoldsTree, source_of, tree_then, resolved_of, source_then, text_status};

use std::alloc::{AllocError, Global};
use vd_base::limits::SOURCE_BYTES;
use vd_base::{Name, Names};
use vd_cmd_plan::{Status, load, rule_status};
use vd_core::{Program, Source};
use vd_elaborate::elaborate;
use vd_outside::Files;
use vd_parser::{ParseFault, parse};
use vd_resolve::{Resolved, resolve};

/// The tree of a text, or why it is no source.
pub fn read_source(alloc: Global, bytes: &[u8]) -> Result<Source, Status>
    requires { length bytes.now ≤ most_source_bytes }
    ensures reads { (texts : TextOutcomes) (name : List ℕ) → Checks (source_of texts name bytes.now) result }
    ensures parsed { IfOk result (λ source. IsParse bytes.now (Ok source)) }
    ensures named { IfOk result HasNames }
{
    match parse(alloc, bytes) {
        Ok(source) => Ok(source),
        Err(fault) => Err(text_status(fault)),
    }
}

/// The status of a text that is no source, and is not too long for one.
fn text_status(fault: ParseFault) -> Status
    requires { (length : ℕ) → fault ≢ parse_fault.TooLong length }
    ensures { (name : List ℕ) → result ≡ text_status name fault }
{
    match fault {
        ParseFault::TooLong(_) => unreachable!(),
        ParseFault::Memory => Status::Memory,
        _ => Status::Syntax(fault),
    }
}

/// Fetches a source, and reads it.
fn load_tree<F: Files>(alloc: Global, files: &mut F, name: &str) -> Result<Source, Status>
    ensures loads { (texts : TextOutcomes) → ExecutesStep (tree_then texts name.now) (F.view files.old) (F.view files.new) result }
    ensures given { Finds (F.view files.old) result (HoldsTree name.now) }
    ensures named { IfOk result HasNames }
{
    let bytes = load(alloc, files, name, SOURCE_BYTES)?;
    read_source(alloc, bytes.as_slice())
}

/// The source, if it meets every rule on names, kinds and limits.
pub fn resolve_source(alloc: Global, source: Source) -> Result<Resolved, Status>
    requires { HasNames source }
    ensures { Checks (resolved_of source) result }
{
    match resolve(alloc, source) {
        Ok(resolved) => Ok(resolved),
        Err(fault) => Err(rule_status(fault)),
    }
}

/// The let-normal program of a source, which is freed here: so no caller has to free a tree.
pub fn normal_program(alloc: Global, source: Resolved) -> Result<Program, AllocError>
    ensures form { IfOk result (λ program. program ≡ normal_form source) }
    ensures outputs { IfOk result (KeepsOutputs source) }
{
    elaborate(alloc, &source)
}

/// Fetches a source, reads it and resolves it.
pub fn load_source<F: Files>(alloc: Global, files: &mut F, name: &str) -> Result<Resolved, Status>
    ensures loads { (texts : TextOutcomes) → ExecutesStep (source_then texts name.now) (F.view files.old) (F.view files.new) result }
    ensures given { Finds (F.view files.old) result (HoldsSource name.now) }
{
    let tree = load_tree(alloc, files, name)?;
    resolve_source(alloc, tree)
}

/// The names of the hosts, in order.
pub(crate) fn names_of_hosts(alloc: Global, source: &Source) -> Result<Names, AllocError>
    ensures { IfOk result (λ names. names ≡ host_names source.now.hosts) }
{
    let mut names = Names::new(alloc);
    for host in source.hosts.iter() {
        names.push(Name::from_slice(alloc, host.name.name.as_slice())?)?;
    }
    Ok(names)
}

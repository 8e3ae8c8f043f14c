//! Functions in order, and main.

ghost use Rattle.std.specs.Prelude.{◌≡◌, [], ◌++◌, map, false, is_some, Ok, OnOk, IfErr, IfOk};
ghost use Rattle.vd_base.specs.Names.{at_name};
ghost use Rattle.vd_resolve.specs.Causes.{block_passing, bodies_told, first, function_told, parameters_told, passing, where_meet};
ghost use Rattle.vd_resolve.specs.Rules.{parameters_check, function_check, bodies_check, block_check, checking, is_new, signature_of};
ghost use Rattle.vd_resolve.specs.Sizes.{IsCapped, function_size, bodies_size, block_size, statement_size, parameter_variables};
ghost use Rattle.vd_resolve.specs.Tables.{names, places};
ghost use Rattle.vd_resolve.specs.Walks.{IsCauseOf, IsFaultOf, variables, signatures};
ghost use Rattle.vd_resolve.specs.Scopes.{scope_of, sizes_of};

use crate::declarations::Declarations;
use crate::expression::Values;
use crate::fault::NameFault;
use crate::met::Met;
use crate::names::declare;
use crate::size::Size;
use crate::statement::expect_kind;
use crate::symbol::{Callee, Signature, Symbol};
use crate::table::NameTable;
use std::alloc::{AllocError, Global};
use vd_base::Items;
use vd_core::{Function, Ident, Parameter, Statement};

fn declare_parameters<'a>(
    values: &mut Values<'a>,
    parameters: &'a [Parameter],
) -> Result<(), NameFault>
    ensures ok { OnOk result (parameters_check (names values.old) parameters.now ≡ Ok (names values.new)) }
    ensures told { OnOk result (parameters_told values.old parameters.now ≡ Ok values.new) }
    ensures variables { OnOk result (variables (names values.new) ≡
        variables (names values.old) ++ parameter_variables parameters.now) }
    ensures fault { IfErr result (IsFaultOf (parameters_check (names values.old) parameters.now)) }
    ensures cause { IfErr result (IsCauseOf (parameters_told values.old parameters.now)) }
{
    for parameter in parameters {
        declare(values, &parameter.name, Symbol::Constant(parameter.kind))?;
    }
    Ok(())
}

fn read_signature(alloc: Global, function: &Function) -> Result<Signature, AllocError>
    ensures { IfOk result (λ signature. signature ≡ signature_of function.now) }
{
    let mut parameters = Items::new(alloc);
    for parameter in function.parameters.as_slice() {
        parameters.push(parameter.kind)?;
    }
    Ok(Signature {
        parameters,
        result: function.kind,
    })
}

impl<'a> Declarations<'a> {
    /// The size of a function's body, with what it gives.
    fn function(&self, function: &'a Function) -> Result<Size, NameFault>
        ensures ok { OnOk result (function_check (scope_of self.now) function.now ≡ Ok tt) }
        ensures size { IfOk result (λ size. IsCapped size (function_size (sizes_of self.now) function.now)) }
        ensures told { OnOk result (function_told (scope_of self.now) function.now ≡ Ok tt) }
        ensures fault { IfErr result (IsFaultOf (function_check (scope_of self.now) function.now)) }
        ensures cause { IfErr result (IsCauseOf (function_told (scope_of self.now) function.now)) }
    {
        let mut values = NameTable::new(self.alloc);
        declare_parameters(&mut values, function.parameters.as_slice())?;
        let body = self.statements(&mut values, function.body.as_slice())?;
        let gives = self.expr(&values, &function.gives)?;
        let met = Met::Returned(gives.kind);
        expect_kind(function.at_return, met, function.kind, gives.kind)?;
        Ok(body.also(gives.size))
    }

    /// The size of main, which sees no value at first.
    fn main_block(&self, main: &'a [Statement]) -> Result<Size, NameFault>
        ensures ok { OnOk result (block_check (map checking main.now) (scope_of self.now) [] ≡ Ok []) }
        ensures size { IfOk result (λ size. IsCapped size (block_size (map statement_size main.now) (sizes_of self.now) [])) }
        ensures told { OnOk result (block_passing (map passing main.now) (scope_of self.now) ([], []) ≡ Ok ([], [])) }
        ensures fault { IfErr result (IsFaultOf (block_check (map checking main.now) (scope_of self.now) [])) }
        ensures cause { IfErr result (IsCauseOf (block_passing (map passing main.now) (scope_of self.now) ([], []))) }
    {
        let mut values = NameTable::new(self.alloc);
        self.block(&mut values, main)
    }
}

/// Whether a function may have the name.
#[tactic(auto, using(crate::proofs::Lookups::has_signature))]
fn fresh_function(callees: &NameTable<'_, Callee>, name: &Ident) -> Result<(), NameFault>
    ensures ok { OnOk result (is_new name.now (signatures (names callees.now)) ≡ Ok tt) }
    ensures absent { OnOk result (is_some (at_name (names callees.now) name.now.name) ≡ false) }
    ensures fault { IfErr result (IsFaultOf (is_new name.now (signatures (names callees.now)))) }
    ensures cause { IfErr result (IsCauseOf (where_meet (first (at_name (places callees.now) name.now.name))
        (is_new name.now (signatures (names callees.now))))) }
{
    match callees.place(name.name.as_slice()) {
        Some(first) => Err(NameFault::Twice(name.span, first)),
        None => Ok(()),
    }
}

/// The functions in order and main, each of which sees the functions before it.
pub(crate) fn check_bodies<'a>(
    alloc: Global,
    principals: NameTable<'a, ()>,
    hosts: NameTable<'a, ()>,
    functions: &'a [Function],
    main: &'a [Statement],
) -> Result<Size, NameFault>
    ensures ok { OnOk result (bodies_check (names principals.entry) (names hosts.entry) functions.now main.now ≡ Ok tt) }
    ensures told { OnOk result (bodies_told (names principals.entry) (names hosts.entry) functions.now main.now ≡ Ok tt) }
    ensures size { IfOk result (λ size. IsCapped size (bodies_size functions.now main.now)) }
    ensures fault { IfErr result (IsFaultOf (bodies_check (names principals.entry) (names hosts.entry) functions.now main.now)) }
    ensures cause { IfErr result (IsCauseOf (bodies_told (names principals.entry) (names hosts.entry) functions.now main.now)) }
{
    let mut callees = NameTable::new(alloc);
    for k in 0..functions.len() {
        let function = &functions[k];
        fresh_function(&callees, &function.name)?;
        let declarations = Declarations {
            alloc,
            principals: &principals,
            hosts: &hosts,
            callees: &callees,
            earlier: &functions[..k],
            later: &functions[k..],
        };
        let size = declarations.function(function)?;
        let signature = read_signature(alloc, function)?;
        callees.add(&function.name, Callee { signature, size })?;
    }
    let declarations = Declarations {
        alloc,
        principals: &principals,
        hosts: &hosts,
        callees: &callees,
        earlier: functions,
        later: &functions[functions.len()..],
    };
    declarations.main_block(main)
}

//! The names of a whole source.

ghost use Rattle.std.specs.Prelude.{◌≡◌, None, [], OnOk, IfOk};
ghost use Rattle.vd_lsp_names.specs.Uses as uses;

use crate::forms::{declare, label};
use crate::kinds::{Declared, Outer, Role, Use};
use std::alloc::{AllocError, Global};
use vd_base::{Items, Scope};
use vd_core::{Function, Host, Ident, Parameter, Source, Statement};

/// The declaration of a name outside of blocks.
fn declaration(role: Role, name: &Ident) -> Declared
    ensures { result ≡ uses.declaration role name.now None }
{
    Declared {
        role,
        at: name.span,
        statement: None,
    }
}

/// A name that is declared outside of blocks.
fn list(
    role: Role,
    name: &Ident,
    names: &mut Scope<Declared>,
    found: &mut Items<Use>,
) -> Result<(), AllocError>
    ensures { OnOk result (uses.listed_of found.new names.new ≡ uses.listed role name.now (uses.listed_of found.old names.old)) }
{
    let declared = declaration(role, name);
    declare(declared, name, found)?;
    names.add(name.name.as_slice(), declared)
}

/// The principals.
fn list_principals(
    alloc: Global,
    idents: &[Ident],
    found: &mut Items<Use>,
) -> Result<Scope<Declared>, AllocError>
    ensures { IfOk result (λ names. uses.listed_of found.new names ≡ uses.principals_named (uses.listed_of found.old []) idents.now) }
{
    let mut names = Scope::new(alloc);
    for ident in idents {
        list(Role::Principal, ident, &mut names, found)?;
    }
    Ok(names)
}

/// A host, with its label.
fn list_host(
    principals: &Scope<Declared>,
    host: &Host,
    names: &mut Scope<Declared>,
    found: &mut Items<Use>,
) -> Result<(), AllocError>
    ensures { OnOk result (uses.listed_of found.new names.new ≡
        uses.host_named principals.now host.now (uses.listed_of found.old names.old)) }
{
    list(Role::Host, &host.name, names, found)?;
    label(principals, &host.label, found)
}

/// The hosts, with their labels.
fn list_hosts(
    alloc: Global,
    principals: &Scope<Declared>,
    hosts: &[Host],
    found: &mut Items<Use>,
) -> Result<Scope<Declared>, AllocError>
    ensures { IfOk result (λ names. uses.listed_of found.new names ≡
        uses.hosts_named principals.now (uses.listed_of found.old []) hosts.now) }
{
    let mut names = Scope::new(alloc);
    for host in hosts {
        list_host(principals, host, &mut names, found)?;
    }
    Ok(names)
}

/// The parameters of a function, which are then in sight.
fn list_parameters(
    parameters: &[Parameter],
    values: &mut Scope<Declared>,
    found: &mut Items<Use>,
) -> Result<(), AllocError>
    ensures { OnOk result (uses.walk_of found.new values.new ≡ uses.parameters_named (uses.walk_of found.old values.old) parameters.now) }
{
    for parameter in parameters {
        let declared = declaration(Role::Parameter, &parameter.name);
        declare(declared, &parameter.name, found)?;
        values.add(parameter.name.name.as_slice(), declared)?;
    }
    Ok(())
}

impl Outer {
    /// The names in a function.
    fn function(
        &self,
        alloc: Global,
        function: &Function,
        found: &mut Items<Use>,
    ) -> Result<(), AllocError>
        ensures { OnOk result (found.new ≡ uses.function_naming self.now function.now found.old) }
    {
        let mut values = Scope::new(alloc);
        declare(
            declaration(Role::Function, &function.name),
            &function.name,
            found,
        )?;
        list_parameters(function.parameters.as_slice(), &mut values, found)?;
        self.statements(&mut values, function.body.as_slice(), found)?;
        self.expr(&values, &function.gives, found)
    }

    /// Brings a function into sight.
    fn add_function(&mut self, function: &Function) -> Result<(), AllocError>
        ensures { OnOk result (self.new ≡ uses.with_function function.now self.old) }
    {
        let declared = declaration(Role::Function, &function.name);
        self.functions.add(function.name.name.as_slice(), declared)
    }

    /// The names in the functions, each of which is then in sight.
    fn functions(
        &mut self,
        alloc: Global,
        functions: &[Function],
        found: &mut Items<Use>,
    ) -> Result<(), AllocError>
        ensures { OnOk result (uses.declaring_of found.new self.new ≡
            uses.functions_named (uses.declaring_of found.old self.old) functions.now) }
    {
        for function in functions {
            self.function(alloc, function, found)?;
            self.add_function(function)?;
        }
        Ok(())
    }

    /// The names in the main block.
    fn main(
        &self,
        alloc: Global,
        main: &[Statement],
        found: &mut Items<Use>,
    ) -> Result<(), AllocError>
        ensures { OnOk result (found.new ≡ uses.main_naming (uses.declaring_of found.old self.now) main.now) }
    {
        let mut values = Scope::new(alloc);
        self.statements(&mut values, main, found)
    }
}

/// The principals and the hosts, where no function is in sight.
fn outer_of(alloc: Global, source: &Source, found: &mut Items<Use>) -> Result<Outer, AllocError>
    ensures { IfOk result (λ outer. uses.declaring_of found.new outer ≡ uses.outer_named found.old source.now) }
{
    let principals = list_principals(alloc, source.principals.as_slice(), found)?;
    let hosts = list_hosts(alloc, &principals, source.hosts.as_slice(), found)?;
    Ok(Outer {
        principals,
        hosts,
        functions: Scope::new(alloc),
    })
}

/// The names of a source in the order of its text, each with what it declares or with what is in sight under it.
pub fn uses_of(alloc: Global, source: &Source) -> Result<Items<Use>, AllocError>
    ensures { IfOk result (λ found. found ≡ uses.uses_of source.now) }
{
    let mut found = Items::new(alloc);
    let mut outer = outer_of(alloc, source, &mut found)?;
    outer.functions(alloc, source.functions.as_slice(), &mut found)?;
    outer.main(alloc, source.main.as_slice(), &mut found)?;
    Ok(found)
}

//! The names in statements.

ghost use Rattle.std.specs.Prelude.{◌≡◌, Some, length, map, take, OnOk};
ghost use Rattle.vd_lsp_names.specs.Uses as uses;
ghost use Rattle.vd_lsp_names.specs.Uses.{walk_of, walking};

use crate::forms::{declare, mention, written};
use crate::kinds::{Declared, Outer, Role, Use};
use std::alloc::AllocError;
use vd_base::{Items, Scope, Span};
use vd_core::{Expr, Ident, Statement, WrittenLabel};

/// The declaration of a name by a statement.
fn declared_at(role: Role, name: &Ident, statement: Span) -> Declared
    ensures { result ≡ uses.declaration role name.now (Some statement.start) }
{
    Declared {
        role,
        at: name.span,
        statement: Some(statement.start),
    }
}

impl Outer {
    /// The names in statements, whose declarations stay in sight.
    #[cycle(walking)]
    pub fn statements(
        &self,
        values: &mut Scope<Declared>,
        statements: &[Statement],
        found: &mut Items<Use>,
    ) -> Result<(), AllocError>
        ensures named { OnOk result (walk_of found.new values.new ≡
            uses.in_order (map walking statements.now) self.now (walk_of found.old values.old)) }
        ensures kept { OnOk result (take (length values.old) values.new ≡ values.old) }
    {
        for statement in statements {
            self.statement(values, statement, found)?;
        }
        Ok(())
    }

    /// The names in a block, whose declarations end with it.
    #[cycle(walking)]
    fn block(
        &self,
        values: &mut Scope<Declared>,
        body: &[Statement],
        found: &mut Items<Use>,
    ) -> Result<(), AllocError>
        ensures named { OnOk result (walk_of found.new values.new ≡
            uses.block_walking (map walking body.now) self.now (walk_of found.old values.old)) }
        ensures kept { OnOk result (values.new ≡ values.old) }
    {
        let outer = values.len();
        self.statements(values, body, found)?;
        values.truncate(outer);
        Ok(())
    }

    /// The names in a declaration that has a value.
    fn binding(
        &self,
        values: &mut Scope<Declared>,
        declared: Declared,
        name: &Ident,
        label: &Option<WrittenLabel>,
        value: &Expr,
        found: &mut Items<Use>,
    ) -> Result<(), AllocError>
        ensures named { OnOk result (walk_of found.new values.new ≡
            uses.binding declared name.now label.now value.now self.now (walk_of found.old values.old)) }
        ensures kept { OnOk result (take (length values.old) values.new ≡ values.old) }
    {
        declare(declared, name, found)?;
        written(&self.principals, label, found)?;
        self.expr(values, value, found)?;
        values.add(name.name.as_slice(), declared)
    }

    /// The names in the declaration of an array.
    fn array(
        &self,
        values: &mut Scope<Declared>,
        declared: Declared,
        name: &Ident,
        label: &Option<WrittenLabel>,
        found: &mut Items<Use>,
    ) -> Result<(), AllocError>
        ensures found { OnOk result (found.new ≡ uses.written_naming label.now self.now.principals
            (uses.declares name.now declared found.old)) }
        ensures values { OnOk result (values.new ≡ uses.with_value name.now declared values.old) }
    {
        declare(declared, name, found)?;
        written(&self.principals, label, found)?;
        values.add(name.name.as_slice(), declared)
    }

    /// The names in a store.
    fn store(
        &self,
        values: &Scope<Declared>,
        name: &Ident,
        value: &Expr,
        found: &mut Items<Use>,
    ) -> Result<(), AllocError>
        ensures { OnOk result (found.new ≡ uses.naming value.now self.now values.now (uses.mention name.now values.now found.old)) }
    {
        mention(values, name, found)?;
        self.expr(values, value, found)
    }

    /// The names in a write to an array.
    fn put(
        &self,
        values: &Scope<Declared>,
        name: &Ident,
        index: &Expr,
        value: &Expr,
        found: &mut Items<Use>,
    ) -> Result<(), AllocError>
        ensures { OnOk result (found.new ≡ uses.naming value.now self.now values.now
            (uses.naming index.now self.now values.now (uses.mention name.now values.now found.old))) }
    {
        mention(values, name, found)?;
        self.expr(values, index, found)?;
        self.expr(values, value, found)
    }

    /// The names in an output.
    fn output(
        &self,
        values: &Scope<Declared>,
        value: &Expr,
        host: &Ident,
        found: &mut Items<Use>,
    ) -> Result<(), AllocError>
        ensures { OnOk result (found.new ≡ uses.mention host.now self.now.hosts (uses.naming value.now self.now values.now found.old)) }
    {
        self.expr(values, value, found)?;
        mention(&self.hosts, host, found)
    }

    /// The names in a loop, whose own name ends with it.
    #[cycle(walking)]
    fn turns(
        &self,
        values: &mut Scope<Declared>,
        declared: Declared,
        name: &Ident,
        body: &[Statement],
        found: &mut Items<Use>,
    ) -> Result<(), AllocError>
        ensures named { OnOk result (found.new ≡ (uses.in_order (map walking body.now) self.now
            (walk_of (uses.declares name.now declared found.old) (uses.with_value name.now declared values.old))).found) }
        ensures kept { OnOk result (values.new ≡ values.old) }
    {
        let outer = values.len();
        declare(declared, name, found)?;
        values.add(name.name.as_slice(), declared)?;
        self.statements(values, body, found)?;
        values.truncate(outer);
        Ok(())
    }

    /// The names in a statement, whose declaration stays in sight.
    #[cycle(walking)]
    fn statement(
        &self,
        values: &mut Scope<Declared>,
        statement: &Statement,
        found: &mut Items<Use>,
    ) -> Result<(), AllocError>
        ensures named { OnOk result (walk_of found.new values.new ≡ walking statement.now self.now (walk_of found.old values.old)) }
        ensures kept { OnOk result (take (length values.old) values.new ≡ values.old) }
    {
        match statement {
            Statement::Let {
                at,
                name,
                label,
                value,
            } => {
                let declared = declared_at(Role::Constant, name, *at);
                self.binding(values, declared, name, label, value, found)
            }
            Statement::Var {
                at,
                name,
                kind: _,
                label,
                value,
            } => {
                let declared = declared_at(Role::Variable, name, *at);
                self.binding(values, declared, name, label, value, found)
            }
            Statement::Array {
                at,
                name,
                kind: _,
                length: _,
                label,
            } => {
                let declared = declared_at(Role::Array, name, *at);
                self.array(values, declared, name, label, found)
            }
            Statement::Store { name, value } => self.store(values, name, value, found),
            Statement::Put { name, index, value } => self.put(values, name, index, value, found),
            Statement::Output { at: _, value, host } => self.output(values, value, host, found),
            Statement::If {
                at: _,
                guard,
                then_block,
                else_block,
            } => {
                self.expr(values, guard, found)?;
                self.block(values, then_block.as_slice(), found)?;
                self.block(values, else_block.as_slice(), found)
            }
            Statement::For {
                at,
                name,
                count: _,
                body,
            } => {
                let declared = declared_at(Role::Turn, name, *at);
                self.turns(values, declared, name, body.as_slice(), found)
            }
        }
    }
}

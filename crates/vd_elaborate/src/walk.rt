//! The walk over a source that makes its let-normal form.

ghost use Rattle.std.specs.Prelude.{◌≡◌, ◌≤◌, IfOk, OnOk, length, map};
ghost use Rattle.vd_base.specs.Limits.{most_hosts};
ghost use Rattle.vd_semantics.specs.SourceMeaning.{host_names};
ghost use Rattle.vd_elaborate.specs.Normal.{main_made, host_id, normal_form, written};
ghost use Rattle.vd_elaborate.specs.Outputs.{KeepsOutputs};
ghost use Rattle.vd_elaborate.specs.Lowered.{Fits, Gives, lowered, all_lowered, appended, chained, called, entered, place as at, stated, sequenced, inside, both, branched, in_turn, around};

use crate::anf::{Here, Spot};
use crate::declarations::Declarations;
use crate::forms::{copy_form, copy_label, copy_name};
use crate::made::{Made, slot_of_name};
use crate::names::{bind, spot};
use crate::steps::{
    choose, copy, factor, infix, infix_gives, is_plain, of_element, of_name, operation, prefixes,
    put, shift_operation, store,
};
use std::alloc::{AllocError, Global};
use vd_base::{HostId, Items, Kind, Names, Op, Scope, SlotId};
use vd_core::{
    Expr, Function, Host, Ident, NormalForm, Program, Right, Segment, Source, Statement, Stmt,
    Written,
};
use vd_resolve::Resolved;
use vd_semantics::hosts::place;

/// The number of a host.
fn host_of(hosts: &[Host], host: &Ident) -> HostId
    requires { length hosts.now ≤ most_hosts }
    ensures { result ≡ host_id (host_names hosts.now) host.now }
{
    HostId(place(hosts, host.name.as_slice()) as u8)
}

impl<'a> Declarations<'a> {
    /// Makes an expression, and gives the slot of its value.
    #[cycle(walk)]
    fn lower(
        &self,
        names: &Scope<Spot>,
        made: &mut Made,
        here: Here,
        expr: &Expr,
    ) -> Result<u16, AllocError>
        requires { Fits (lowered self.now names.now here expr.now made.old).1 }
        ensures { Gives result made.new (lowered self.now names.now here expr.now made.old) }
    {
        match expr {
            Expr::Number(number) => made.emit(self.alloc, here, Kind::Word, Right::Lit(*number)),
            Expr::Truth(truth) => made.emit(
                self.alloc,
                here,
                Kind::Bool,
                Right::Lit(u32::from(*truth)),
            ),
            Expr::Value(name) => of_name(self.alloc, made, here, spot(names, name.name.as_slice())),
            Expr::Element(name, index) => {
                let index = self.lower(names, made, here, index)?;
                of_element(
                    self.alloc,
                    made,
                    here,
                    spot(names, name.name.as_slice()),
                    index,
                )
            }
            Expr::Input(host) => {
                let host = host_of(self.hosts, host);
                made.emit(self.alloc, here, Kind::Word, Right::Input(host))
            }
            Expr::Call(name, arguments) => {
                let slots = self.lower_all(names, made, here, arguments.as_slice())?;
                self.call(made, here, name.name.as_slice(), slots.as_slice())
            }
            Expr::Min(_, x, y) => {
                let x = self.lower(names, made, here, x)?;
                let y = self.lower(names, made, here, y)?;
                operation(
                    self.alloc,
                    made,
                    here,
                    Op::Min,
                    Kind::Word,
                    &[SlotId(x), SlotId(y)],
                )
            }
            Expr::Max(_, x, y) => {
                let x = self.lower(names, made, here, x)?;
                let y = self.lower(names, made, here, y)?;
                operation(
                    self.alloc,
                    made,
                    here,
                    Op::Max,
                    Kind::Word,
                    &[SlotId(x), SlotId(y)],
                )
            }
            Expr::Mux(_, x, y, z) => {
                let x = self.lower(names, made, here, x)?;
                let y = self.lower(names, made, here, y)?;
                let z = self.lower(names, made, here, z)?;
                choose(self.alloc, made, here, x, y, z)
            }
            Expr::Declassify(x, to) => {
                let x = self.lower(names, made, here, x)?;
                let to = copy_form(self.alloc, to)?;
                let kind = made.kind(x);
                made.emit(self.alloc, here, kind, Right::Declassify(SlotId(x), to))
            }
            Expr::Endorse(x, to) => {
                let x = self.lower(names, made, here, x)?;
                let to = copy_form(self.alloc, to)?;
                let kind = made.kind(x);
                made.emit(self.alloc, here, kind, Right::Endorse(SlotId(x), to))
            }
            Expr::Unary(x, signs) => {
                let x = self.lower(names, made, here, x)?;
                prefixes(self.alloc, made, here, x, signs.as_slice())
            }
            Expr::Chain(first, segments) => {
                let x = self.lower(names, made, here, first)?;
                self.chain(names, made, here, x, segments.as_slice())
            }
            Expr::Brackets(x) => self.lower(names, made, here, x),
        }
    }

    /// Makes the steps of a chain, from the slot of its first operand.
    #[cycle(walk)]
    fn chain(
        &self,
        names: &Scope<Spot>,
        made: &mut Made,
        here: Here,
        first: u16,
        segments: &[Segment],
    ) -> Result<u16, AllocError>
        requires { Fits (chained self.now names.now here segments.now first made.old).1 }
        ensures { Gives result made.new (chained self.now names.now here segments.now first made.old) }
    {
        let mut x = first;
        for segment in segments {
            x = self.segment(names, made, here, x, segment)?;
        }
        Ok(x)
    }

    /// Makes one step of a chain.
    #[cycle(walk)]
    fn segment(
        &self,
        names: &Scope<Spot>,
        made: &mut Made,
        here: Here,
        x: u16,
        segment: &Segment,
    ) -> Result<u16, AllocError>
        requires { Fits (appended self.now names.now here segment.now x made.old).1 }
        ensures { Gives result made.new (appended self.now names.now here segment.now x made.old) }
    {
        match segment {
            Segment::Infix(op, _, right) => match factor(self.hosts, *op, right) {
                Some(number) => {
                    operation(
                        self.alloc,
                        made,
                        here,
                        Op::Scale(number),
                        Kind::Word,
                        &[SlotId(x)],
                    )
                }
                None => {
                    let y = self.lower(names, made, here, right)?;
                    let kind = infix_gives(*op, made.kind(x));
                    let right = infix(self.alloc, *op, x, y)?;
                    made.emit(self.alloc, here, kind, right)
                }
            },
            Segment::Shift(direction, _, bits) => {
                operation(
                    self.alloc,
                    made,
                    here,
                    shift_operation(*direction, *bits),
                    Kind::Word,
                    &[SlotId(x)],
                )
            }
        }
    }

    /// Makes expressions, from left to right.
    #[cycle(walk)]
    fn lower_all(
        &self,
        names: &Scope<Spot>,
        made: &mut Made,
        here: Here,
        exprs: &[Expr],
    ) -> Result<Items<u16>, AllocError>
        requires { Fits (all_lowered self.now names.now here exprs.now made.old).1 }
        ensures { Gives result made.new (all_lowered self.now names.now here exprs.now made.old) }
    {
        let mut slots = Items::new(self.alloc);
        for expr in exprs {
            let slot = self.lower(names, made, here, expr)?;
            slots.push(slot)?;
        }
        Ok(slots)
    }

    /// Makes a call of the first function with this name.
    #[cycle(walk)]
    fn call(
        &self,
        made: &mut Made,
        here: Here,
        name: &[u8],
        slots: &[u16],
    ) -> Result<u16, AllocError>
        requires { Fits (called self.now here name.now slots.now made.old).1 }
        ensures { Gives result made.new (called self.now here name.now slots.now made.old) }
    {
        for k in 0..self.functions.len() {
            let function = &self.functions[k];
            if function.name.name.as_slice() == name {
                let earlier = Declarations {
                    alloc: self.alloc,
                    hosts: self.hosts,
                    functions: &self.functions[..k],
                };
                return earlier.enter(function, made, here, slots);
            }
        }
        made.emit(self.alloc, here, Kind::Word, Right::Lit(0))
    }

    /// Makes a function's statements at a call; the function sees these functions.
    #[cycle(walk)]
    fn enter(
        &self,
        function: &Function,
        made: &mut Made,
        here: Here,
        slots: &[u16],
    ) -> Result<u16, AllocError>
        requires { Fits (entered self.now here function.now slots.now made.old).1 }
        ensures { Gives result made.new (entered self.now here function.now slots.now made.old) }
    {
        let mut names = bind(self.alloc, function.parameters.as_slice(), slots)?;
        self.sequence(&mut names, made, here.block, function.body.as_slice())?;
        self.lower(&names, made, here, &function.gives)
    }

    /// Makes statements in order, in the block of that number.
    #[cycle(walk)]
    fn sequence(
        &self,
        names: &mut Scope<Spot>,
        made: &mut Made,
        block: u32,
        statements: &[Statement],
    ) -> Result<(), AllocError>
        requires { Fits (sequenced self.now block statements.now (at names.old made.old)).made }
        ensures { OnOk result (at names.new made.new ≡ sequenced self.now block statements.now (at names.old made.old)) }
    {
        for statement in statements {
            self.statement(names, made, block, statement)?;
        }
        Ok(())
    }

    /// Makes a statement.
    #[cycle(walk)]
    fn statement(
        &self,
        names: &mut Scope<Spot>,
        made: &mut Made,
        block: u32,
        statement: &Statement,
    ) -> Result<(), AllocError>
        requires { Fits (stated self.now block statement.now (at names.old made.old)).made }
        ensures { OnOk result (at names.new made.new ≡ stated self.now block statement.now (at names.old made.old)) }
    {
        match statement {
            Statement::Let {
                at,
                name,
                label,
                value,
            } => {
                let here = Here {
                    offset: at.start,
                    block,
                };
                let plain = is_plain(self.hosts, names, value);
                let x = self.lower(names, made, here, value)?;
                let x = copy(self.alloc, made, here, plain, x)?;
                made.rename(self.alloc, x, name, label)?;
                names.add(name.name.as_slice(), Spot::Binding(x))
            }
            Statement::Var {
                at,
                name,
                kind,
                label,
                value,
            } => {
                let here = Here {
                    offset: at.start,
                    block,
                };
                let x = self.lower(names, made, here, value)?;
                let slot = slot_of_name(self.alloc, here, name, *kind, label)?;
                let next = made.next();
                let variable = made.add(slot, Stmt::NewVar(SlotId(next), SlotId(x)))?;
                names.add(name.name.as_slice(), Spot::Variable(variable))
            }
            Statement::Array {
                at,
                name,
                kind,
                length,
                label,
            } => {
                let here = Here {
                    offset: at.start,
                    block,
                };
                let slot = slot_of_name(self.alloc, here, name, *kind, label)?;
                let next = made.next();
                let array = made.add(slot, Stmt::NewArray(SlotId(next), *length))?;
                names.add(name.name.as_slice(), Spot::Array(array))
            }
            Statement::Store { name, value } => {
                let here = Here {
                    offset: name.span.start,
                    block,
                };
                let x = self.lower(names, made, here, value)?;
                store(made, spot(names, name.name.as_slice()), x)
            }
            Statement::Put { name, index, value } => {
                let here = Here {
                    offset: name.span.start,
                    block,
                };
                let index = self.lower(names, made, here, index)?;
                let x = self.lower(names, made, here, value)?;
                put(made, spot(names, name.name.as_slice()), index, x)
            }
            Statement::Output { at, value, host } => {
                let here = Here {
                    offset: at.start,
                    block,
                };
                let x = self.lower(names, made, here, value)?;
                let host = host_of(self.hosts, host);
                made.push(Stmt::Output(SlotId(x), host, at.start))
            }
            Statement::If {
                at,
                guard,
                then_block,
                else_block,
            } => {
                let here = Here {
                    offset: at.start,
                    block,
                };
                let x = self.lower(names, made, here, guard)?;
                let inner = made.begin_block();
                let (then_body, else_body) = self.branches(
                    names,
                    made,
                    inner,
                    then_block.as_slice(),
                    else_block.as_slice(),
                )?;
                made.push(Stmt::If(SlotId(x), then_body, else_body, at.start))?;
                Ok(())
            }
            Statement::For {
                at,
                name,
                count,
                body,
            } => {
                let here = Here {
                    offset: at.start,
                    block,
                };
                let body = self.turn(names, made, here, name, body.as_slice())?;
                made.push(Stmt::For(*count, body))
            }
        }
    }

    /// Makes the statements of both branches of an If, which are one block.
    #[cycle(walk)]
    fn branches(
        &self,
        names: &mut Scope<Spot>,
        made: &mut Made,
        block: u32,
        then_block: &[Statement],
        else_block: &[Statement],
    ) -> Result<(Items<Stmt>, Items<Stmt>), AllocError>
        requires { Fits (both self.now block names.old then_block.now else_block.now made.old) }
        ensures then_body { IfOk result (λ b. b.0 ≡ (inside self.now block names.old then_block.now made.old).body) }
        ensures else_body { IfOk result (λ b. b.1 ≡ (both self.now block names.old then_block.now else_block.now made.old).body) }
        ensures made { OnOk result (made.new ≡ branched self.now block names.old then_block.now else_block.now made.old) }
        ensures names { OnOk result (names.new ≡ names.old) }
    {
        let then_body = self.inner(names, made, block, then_block)?;
        let else_body = self.inner(names, made, block, else_block)?;
        Ok((then_body, else_body))
    }

    /// Makes the statements of an inner block, whose names end with it.
    #[cycle(walk)]
    fn inner(
        &self,
        names: &mut Scope<Spot>,
        made: &mut Made,
        block: u32,
        body: &[Statement],
    ) -> Result<Items<Stmt>, AllocError>
        requires { Fits (inside self.now block names.old body.now made.old) }
        ensures body { IfOk result (λ stmts. stmts ≡ (inside self.now block names.old body.now made.old).body) }
        ensures made { OnOk result (made.new ≡ around made.old (inside self.now block names.old body.now made.old)) }
        ensures names { OnOk result (names.new ≡ names.old) }
    {
        let outer = made.set_aside(self.alloc);
        let count = names.len();
        self.sequence(names, made, block, body)?;
        names.truncate(count);
        Ok(made.take_back(outer))
    }

    /// Makes the statements of a loop's body, which begin with its name.
    #[cycle(walk)]
    fn turn(
        &self,
        names: &mut Scope<Spot>,
        made: &mut Made,
        here: Here,
        name: &Ident,
        body: &[Statement],
    ) -> Result<Items<Stmt>, AllocError>
        requires { Fits (in_turn self.now here name.now names.old body.now made.old) }
        ensures body { IfOk result (λ stmts. stmts ≡ (in_turn self.now here name.now names.old body.now made.old).body) }
        ensures made { OnOk result (made.new ≡ around made.old (in_turn self.now here name.now names.old body.now made.old)) }
        ensures names { OnOk result (names.new ≡ names.old) }
    {
        let outer = made.set_aside(self.alloc);
        let count = names.len();
        let slot = slot_of_name(self.alloc, here, name, Kind::Word, &None)?;
        let next = made.next();
        let turn = made.add(slot, Stmt::Let(SlotId(next), Right::Turn))?;
        names.add(name.name.as_slice(), Spot::Binding(turn))?;
        self.sequence(names, made, here.block, body)?;
        names.truncate(count);
        Ok(made.take_back(outer))
    }
}

fn all_names(alloc: Global, idents: &[Ident]) -> Result<Names, AllocError>
    ensures { IfOk result (λ names. names ≡ map (λ x. x.name) idents.now) }
{
    let mut names = Items::new(alloc);
    for ident in idents {
        let name = copy_name(alloc, &ident.name)?;
        names.push(name)?;
    }
    Ok(names)
}

fn all_hosts(alloc: Global, hosts: &[Host]) -> Result<Names, AllocError>
    ensures { IfOk result (λ names. names ≡ host_names hosts.now) }
{
    let mut names = Items::new(alloc);
    for host in hosts {
        let name = copy_name(alloc, &host.name.name)?;
        names.push(name)?;
    }
    Ok(names)
}

fn all_labels(alloc: Global, hosts: &[Host]) -> Result<Items<Written>, AllocError>
    ensures { IfOk result (λ labels. labels ≡ map (λ h. written h.label) hosts.now) }
{
    let mut labels = Items::new(alloc);
    for host in hosts {
        let label = copy_label(alloc, &host.label)?;
        labels.push(label)?;
    }
    Ok(labels)
}

fn make_main(alloc: Global, source: &Source) -> Result<Made, AllocError>
    requires few_hosts { length source.now.hosts ≤ most_hosts }
    requires fits { Fits (main_made source.now) }
    ensures { IfOk result (λ made. made ≡ main_made source.now) }
{
    let declarations = Declarations {
        alloc,
        hosts: source.hosts.as_slice(),
        functions: source.functions.as_slice(),
    };
    let mut made = Made::at_start(alloc);
    let mut names = Scope::new(alloc);
    declarations.sequence(&mut names, &mut made, 0, source.main.as_slice())?;
    Ok(made)
}

/// The let-normal form of a source, with every call inlined. It fails only where memory runs out.
pub fn elaborate(alloc: Global, resolved: &Resolved) -> Result<Program, AllocError>
    ensures form { IfOk result (λ program. program ≡ normal_form resolved.now) }
    ensures outputs { IfOk result (KeepsOutputs resolved.now) }
{
    let form = make_form(alloc, resolved.source())?;
    Ok(Program::new(form))
}

fn make_form(alloc: Global, source: &Source) -> Result<NormalForm, AllocError>
    requires few_hosts { length source.now.hosts ≤ most_hosts }
    requires fits { Fits (main_made source.now) }
    ensures { IfOk result (λ form. form ≡ normal_form source.now) }
{
    let principals = all_names(alloc, source.principals.as_slice())?;
    let hosts = all_hosts(alloc, source.hosts.as_slice())?;
    let labels = all_labels(alloc, source.hosts.as_slice())?;
    let made = make_main(alloc, source)?;
    let (slots, body) = made.into_parts();
    Ok(NormalForm {
        principals,
        hosts,
        labels,
        slots,
        body,
    })
}

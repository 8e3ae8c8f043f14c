//! The single steps by which a let-normal form is made.

ghost use Rattle.std.specs.Prelude.{◌≡◌, [], ◌∷◌, IfOk, OnOk};
ghost use Rattle.vd_semantics.specs.SourceMeaning.{host_names};
ghost use Rattle.vd_elaborate.specs.Normal.{emitted, lowering, infix_right, infix_kind, prefix_op, prefix_kind, prefixes_made, shift_op, name_made, get_made, copied, stored, put_made, scale_of, operation_made, kind_at, two as two_slots};
ghost use Rattle.vd_elaborate.specs.Lowered.{Fits, Gives};

use crate::anf::{Here, Spot};
use crate::made::Made;
use crate::names::spot;
use std::alloc::{AllocError, Global};
use vd_base::{Items, Kind, Op, Scope, SlotId};
use vd_core::{Direction, Expr, Host, Infix, Prefix, Right, Sign, Stmt};

pub(crate) fn prefix_operation(op: Prefix) -> Op
    ensures { result ≡ prefix_op op }
{
    match op {
        Prefix::Flip => Op::Flip,
        Prefix::Not => Op::Not,
    }
}

pub(crate) fn prefix_gives(op: Prefix) -> Kind
    ensures { result ≡ prefix_kind op }
{
    match op {
        Prefix::Flip => Kind::Bool,
        Prefix::Not => Kind::Word,
    }
}

/// The operators before an operand, the nearest first.
pub(crate) fn prefixes(
    alloc: Global,
    made: &mut Made,
    here: Here,
    operand: u16,
    signs: &[Sign],
) -> Result<u16, AllocError>
    requires { Fits (prefixes_made signs.now here operand made.old).1 }
    ensures { Gives result made.new (prefixes_made signs.now here operand made.old) }
{
    let mut x = operand;
    for sign in signs {
        let op = prefix_operation(sign.prefix);
        let kind = prefix_gives(sign.prefix);
        x = operation(alloc, made, here, op, kind, &[SlotId(x)])?;
    }
    Ok(x)
}

pub(crate) fn shift_operation(direction: Direction, bits: u32) -> Op
    ensures { result ≡ shift_op direction bits }
{
    match direction {
        Direction::Left => Op::Shl(bits),
        Direction::Right => Op::Shr(bits),
    }
}

/// The kind that an operator gives, where its left operand has this one.
pub(crate) fn infix_gives(op: Infix, left: Kind) -> Kind
    ensures { result ≡ infix_kind op left }
{
    match op {
        Infix::Equal
        | Infix::NotEqual
        | Infix::Less
        | Infix::LessEqual
        | Infix::Greater
        | Infix::GreaterEqual => Kind::Bool,
        Infix::Or | Infix::Xor | Infix::And => left,
        Infix::Add | Infix::Sub | Infix::Mul | Infix::Div | Infix::Rem => Kind::Word,
    }
}

fn two(alloc: Global, op: Op, x: u16, y: u16) -> Result<Right, AllocError>
    ensures { IfOk result (λ right. right ≡ two_slots op x y) }
{
    let slots = Items::from_slice(alloc, &[SlotId(x), SlotId(y)])?;
    Ok(Right::Apply(op, slots))
}

/// An operator on these slots. `>` and `>=` are `<` and `<=` with the slots turned.
pub(crate) fn infix(alloc: Global, op: Infix, x: u16, y: u16) -> Result<Right, AllocError>
    ensures { IfOk result (λ right. right ≡ infix_right op x y) }
{
    match op {
        Infix::Equal => two(alloc, Op::Eq, x, y),
        Infix::NotEqual => two(alloc, Op::Ne, x, y),
        Infix::Less => two(alloc, Op::Lt, x, y),
        Infix::LessEqual => two(alloc, Op::Le, x, y),
        Infix::Greater => two(alloc, Op::Lt, y, x),
        Infix::GreaterEqual => two(alloc, Op::Le, y, x),
        Infix::Or => two(alloc, Op::Or, x, y),
        Infix::Xor => two(alloc, Op::Xor, x, y),
        Infix::And => two(alloc, Op::And, x, y),
        Infix::Add => two(alloc, Op::Add, x, y),
        Infix::Sub => two(alloc, Op::Sub, x, y),
        Infix::Mul => two(alloc, Op::Mul, x, y),
        Infix::Div => two(alloc, Op::Div, x, y),
        Infix::Rem => two(alloc, Op::Rem, x, y),
    }
}

/// An operation on these slots.
pub(crate) fn operation(
    alloc: Global,
    made: &mut Made,
    here: Here,
    op: Op,
    kind: Kind,
    slots: &[SlotId],
) -> Result<u16, AllocError>
    requires { Fits (emitted here kind (Right.Apply op slots.now) made.old).1 }
    ensures { Gives result made.new (emitted here kind (Right.Apply op slots.now) made.old) }
{
    let slots = Items::from_slice(alloc, slots)?;
    made.emit(alloc, here, kind, Right::Apply(op, slots))
}

/// The slot of a name's value. A variable is loaded; what has no value of its own stands for 0.
pub(crate) fn of_name(
    alloc: Global,
    made: &mut Made,
    here: Here,
    spot: Option<Spot>,
) -> Result<u16, AllocError>
    requires { Fits (name_made spot here made.old).1 }
    ensures { Gives result made.new (name_made spot here made.old) }
{
    match spot {
        None => made.emit(alloc, here, Kind::Word, Right::Lit(0)),
        Some(Spot::Binding(slot)) => Ok(slot),
        Some(Spot::Variable(slot)) => {
            let kind = made.kind(slot);
            made.emit(alloc, here, kind, Right::Load(SlotId(slot)))
        }
        Some(Spot::Array(_)) => made.emit(alloc, here, Kind::Word, Right::Lit(0)),
    }
}

/// The slot of an element, at the slot of its index. Where there is no array it is 0.
pub(crate) fn of_element(
    alloc: Global,
    made: &mut Made,
    here: Here,
    spot: Option<Spot>,
    index: u16,
) -> Result<u16, AllocError>
    requires { Fits (get_made spot here (index, made.old)).1 }
    ensures { Gives result made.new (get_made spot here (index, made.old)) }
{
    match spot {
        None => made.emit(alloc, here, Kind::Word, Right::Lit(0)),
        Some(Spot::Binding(_)) => made.emit(alloc, here, Kind::Word, Right::Lit(0)),
        Some(Spot::Variable(_)) => made.emit(alloc, here, Kind::Word, Right::Lit(0)),
        Some(Spot::Array(slot)) => {
            let kind = made.kind(slot);
            made.emit(alloc, here, kind, Right::Get(SlotId(slot), SlotId(index)))
        }
    }
}

/// A binding's name or a call is copied before it is named.
pub(crate) fn copy(
    alloc: Global,
    made: &mut Made,
    here: Here,
    is_plain: bool,
    slot: u16,
) -> Result<u16, AllocError>
    requires { Fits (copied is_plain here (slot, made.old)).1 }
    ensures { Gives result made.new (copied is_plain here (slot, made.old)) }
{
    if is_plain {
        let kind = made.kind(slot);
        made.emit(alloc, here, kind, Right::Copy(SlotId(slot)))
    } else {
        Ok(slot)
    }
}

/// Stores a slot in a variable. For anything else nothing is made.
pub(crate) fn store(made: &mut Made, spot: Option<Spot>, slot: u16) -> Result<(), AllocError>
    ensures { OnOk result (made.new ≡ stored spot (slot, made.old)) }
{
    match spot {
        Some(Spot::Variable(variable)) => made.push(Stmt::Store(SlotId(variable), SlotId(slot))),
        _ => Ok(()),
    }
}

/// Writes a slot in an array, at the slot of an index. For anything else nothing is made.
pub(crate) fn put(
    made: &mut Made,
    spot: Option<Spot>,
    index: u16,
    slot: u16,
) -> Result<(), AllocError>
    ensures { OnOk result (made.new ≡ put_made spot index (slot, made.old)) }
{
    match spot {
        Some(Spot::Array(array)) => made.push(Stmt::Put(
            SlotId(array),
            SlotId(index),
            SlotId(slot),
        )),
        _ => Ok(()),
    }
}

/// Whether an expression is a binding's name or a call, once its brackets are off.
pub(crate) fn is_plain(hosts: &[Host], names: &Scope<Spot>, expr: &Expr) -> bool
    ensures { result ≡ (lowering (host_names hosts.now) expr.now).plain names.now }
{
    match expr {
        Expr::Value(name) => matches!(spot(names, name.name.as_slice()), Some(Spot::Binding(_))),
        Expr::Chain(first, segments) => segments.as_slice().is_empty()
            && is_plain(hosts, names, first),
        Expr::Call(_, _) => true,
        Expr::Brackets(x) => is_plain(hosts, names, x),
        Expr::Unary(x, signs) => signs.as_slice().is_empty() && is_plain(hosts, names, x),
        _ => false,
    }
}

/// The number that a product is taken with, where it is a bare one right of `*`.
pub(crate) fn factor(hosts: &[Host], op: Infix, right: &Expr) -> Option<u32>
    ensures { result ≡ scale_of op (lowering (host_names hosts.now) right.now).bare }
{
    match op {
        Infix::Mul => bare_number(hosts, right),
        _ => None,
    }
}

fn bare_number(_hosts: &[Host], expr: &Expr) -> Option<u32>
    ensures { result ≡ (lowering (host_names _hosts.now) expr.now).bare }
{
    match expr {
        Expr::Number(number) => Some(*number),
        _ => None,
    }
}

/// The second slot where the first is true, else the third.
pub(crate) fn choose(
    alloc: Global,
    made: &mut Made,
    here: Here,
    x: u16,
    y: u16,
    z: u16,
) -> Result<u16, AllocError>
    requires { Fits (operation_made Op.Mux (kind_at made.old y) here (x ∷ y ∷ z ∷ [], made.old)).1 }
    ensures { Gives result made.new (operation_made Op.Mux (kind_at made.old y) here (x ∷ y ∷ z ∷ [], made.old)) }
{
    let kind = made.kind(y);
    operation(
        alloc,
        made,
        here,
        Op::Mux,
        kind,
        &[SlotId(x), SlotId(y), SlotId(z)],
    )
}

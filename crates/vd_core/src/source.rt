//! The syntax tree of a source. Each span is that of one token, at which a fault may be reported.

use vd_base::{Boxed, Items, Kind, Name, Span};

/// A name as it stands in the text.
#[derive(Drop)]
pub struct Ident {
    pub name: Name,
    pub span: Span,
}

/// A formula over principals as it is written. Brackets leave no trace, and a list of one part is that part.
#[derive(Drop)]
pub enum WrittenForm {
    /// `any`.
    Any,
    /// `none`.
    Never,
    Name(Ident),
    /// Parts joined by `&`.
    Both(Items<WrittenForm>),
    /// Parts joined by `|`.
    Either(Items<WrittenForm>),
}

/// A label as it is written: confidentiality, then integrity.
#[derive(Drop)]
pub struct WrittenLabel {
    pub conf: WrittenForm,
    pub integ: WrittenForm,
}

/// A host with its authority.
#[derive(Drop)]
pub struct Host {
    pub name: Ident,
    pub label: WrittenLabel,
}

/// A parameter of a function.
#[derive(Drop)]
pub struct Parameter {
    pub name: Ident,
    pub kind: Kind,
}

/// An operator before its operand.
#[derive(Clone, Copy, PartialEq, Eq)]
pub enum Prefix {
    /// `!`, which changes the lowest bit.
    Flip,
    /// `~`, which changes every bit.
    Not,
}

/// An operator that stands before an operand, and its span.
#[derive(Clone, Copy, PartialEq, Eq)]
pub struct Sign {
    pub prefix: Prefix,
    pub span: Span,
}

/// An operator between two operands.
#[derive(Clone, Copy, PartialEq, Eq)]
pub enum Infix {
    Equal,
    NotEqual,
    Less,
    LessEqual,
    Greater,
    GreaterEqual,
    Or,
    Xor,
    And,
    Add,
    Sub,
    Mul,
    Div,
    Rem,
}

/// Which way the bits of a word move.
#[derive(Clone, Copy, PartialEq, Eq)]
pub enum Direction {
    Left,
    Right,
}

/// An expression.
#[cycle(expr)]
#[derive(Drop)]
pub enum Expr {
    Number(u32),
    Truth(bool),
    Value(Ident),
    /// An element of an array, with its index.
    Element(Ident, Boxed<Expr>),
    /// The next word of a host.
    Input(Ident),
    Call(Ident, Items<Expr>),
    Min(Span, Boxed<Expr>, Boxed<Expr>),
    Max(Span, Boxed<Expr>, Boxed<Expr>),
    /// The second operand where the first is true, else the third.
    Mux(Span, Boxed<Expr>, Boxed<Expr>, Boxed<Expr>),
    /// With the new confidentiality.
    Declassify(Boxed<Expr>, WrittenForm),
    /// With the new integrity.
    Endorse(Boxed<Expr>, WrittenForm),
    /// An operand, and the operators before it, of which there is at least one: the nearest first, which is the last in
    /// the text and the first to be applied.
    Unary(Boxed<Expr>, Items<Sign>),
    /// An operand, and what is then done to it, from the left. It has at least one segment, and the segments are of one
    /// level of precedence.
    Chain(Boxed<Expr>, Items<Segment>),
    Brackets(Boxed<Expr>),
}

/// One step of a chain. The span is that of the operator.
#[cycle(expr)]
#[derive(Drop)]
pub enum Segment {
    /// An operator with its right operand.
    Infix(Infix, Span, Expr),
    /// A shift by a literal number of bits.
    Shift(Direction, Span, u32),
}

/// A statement. `at` is the span of its first token; where there is none, that token is the name.
#[derive(Drop)]
pub enum Statement {
    Let {
        at: Span,
        name: Ident,
        label: Option<WrittenLabel>,
        value: Expr,
    },
    Var {
        at: Span,
        name: Ident,
        kind: Kind,
        label: Option<WrittenLabel>,
        value: Expr,
    },
    Array {
        at: Span,
        name: Ident,
        kind: Kind,
        length: u32,
        label: Option<WrittenLabel>,
    },
    /// `name := value`.
    Store {
        name: Ident,
        value: Expr,
    },
    /// `name[index] := value`.
    Put {
        name: Ident,
        index: Expr,
        value: Expr,
    },
    Output {
        at: Span,
        value: Expr,
        host: Ident,
    },
    /// Without `else` the second block is empty.
    If {
        at: Span,
        guard: Expr,
        then_block: Items<Statement>,
        else_block: Items<Statement>,
    },
    For {
        at: Span,
        name: Ident,
        count: u32,
        body: Items<Statement>,
    },
}

/// A function.
#[derive(Drop)]
pub struct Function {
    pub name: Ident,
    pub parameters: Items<Parameter>,
    pub kind: Kind,
    pub body: Items<Statement>,
    pub at_return: Span,
    pub gives: Expr,
}

/// A source.
#[derive(Drop)]
pub struct Source {
    pub principals: Items<Ident>,
    pub hosts: Items<Host>,
    pub functions: Items<Function>,
    pub main: Items<Statement>,
}

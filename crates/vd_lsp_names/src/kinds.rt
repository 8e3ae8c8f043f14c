use vd_base::{Scope, Span};

/// What a name stands for.
#[derive(Clone, Copy, PartialEq, Eq)]
pub enum Role {
    Principal,
    Host,
    Function,
    Parameter,
    /// The name of a `let`.
    Constant,
    /// The name of a loop.
    Turn,
    Variable,
    Array,
}

/// A declaration of a name.
#[derive(Clone, Copy)]
pub struct Declared {
    pub role: Role,
    /// Where the name stands in it.
    pub at: Span,
    /// The offset of the statement that declares it; none of what no statement declares.
    pub statement: Option<u32>,
}

/// A name where it stands, with the declaration that it is a part of or that is in sight there, if there is one.
#[derive(Clone, Copy)]
pub struct Use {
    pub at: Span,
    pub declared: Option<Declared>,
}

/// What is declared outside of blocks: the principals, the hosts, and the functions before this place.
#[derive(Drop)]
pub(crate) struct Outer {
    pub principals: Scope<Declared>,
    pub hosts: Scope<Declared>,
    pub functions: Scope<Declared>,
}

//! Grammars as data, and the laws of the LL(1) grammars among them.
//!
//! A grammar is a right side for each symbol, in extended Backus-Naur form, over tokens that are seen by their kinds.
//! `specs/` says what a list of kinds spells and begins, what the tree of a text is, and how an LL(1) machine reads a
//! text token by token. The functions here do nothing: the contract of each is a law.

ghost use Rattle.vd_source_lexer.specs.Laws.{MachineIsExact, FrontsBegin, TextsHaveTrees, OneTree};

/// The machine of a grammar that passes the LL(1) test accepts exactly the texts, takes exactly what begins a text, and
/// stops exactly before the first token that no text goes on with.
pub fn machine_is_exact<S>()
    ensures { MachineIsExact S }
{}

/// Each prefix of a text begins a text, so a text has no unexpected token.
pub fn fronts_begin<S>()
    ensures { FrontsBegin S }
{}

/// The tokens of a text are the leaves of a tree, and those of a tree are a text.
pub fn texts_have_trees<S, T>()
    ensures { TextsHaveTrees S T }
{}

/// No text of an LL(1) grammar has two trees, where no empty text has two.
pub fn one_tree<S, T>()
    ensures { OneTree S T }
{}

//! Laws of the grammar and of the parser's answers. The functions here do nothing: the contract of each is a law.

ghost use Rattle.std.specs.Prelude.{ℕ, List, Ok};
ghost use Rattle.vd_core.specs.Named.{HasNames};
ghost use Rattle.vd_core.specs.declared.source.Source.{Source};
ghost use Rattle.vd_parser.specs.Document.{SameLanguage};
ghost use Rattle.vd_parser.specs.Parsing.{OneTokenDecides};
ghost use Rattle.vd_parser.specs.Outcomes.{IsParse, ParsesOnce, ParsesSomehow};

/// The rules that the parser goes by, in which one token decides each choice, are those of the language.
pub fn same_language()
    ensures { SameLanguage }
{}

/// The rules pass the test that one token decides each choice.
pub fn one_token_decides()
    ensures { OneTokenDecides }
{}

/// No bytes have two outcomes: one tree, or one refusal.
pub fn outcomes_are_single()
    ensures { (bytes : List ℕ) → ParsesOnce bytes }
{}

/// All bytes have an outcome.
pub fn outcomes_are_total()
    ensures { (bytes : List ℕ) → ParsesSomehow bytes }
{}

/// Whatever bytes a source was parsed from, it has principals and hosts, and their names are NAMEs.
pub fn names_are_names()
    ensures { (bytes : List ℕ) (source : Source) → IsParse bytes (Ok source) → HasNames source }
{}

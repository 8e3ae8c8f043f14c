ghost use Rattle.std.specs.Prelude.{◌≡◌, IfOk};
ghost use Rattle.vd_source_lexer.specs.Grammar.{Star};
ghost use Rattle.vd_parser.specs.Language.{prefix_ops};
ghost use Rattle.vd_parser.specs.Syntax.{prefixes_of, signs_of, signed};
ghost use Rattle.vd_parser.specs.Parsing.{Parses};

use crate::cursor::{Cursor, Refusal};
use crate::operators::prefix;
use crate::parser::Parser;
use std::alloc::AllocError;
use vd_base::{Boxed, Items};
use vd_core::{Expr, Sign};

impl<'a> Parser<'a> {
    /// {"!" | "~"}, in the order of the text.
    fn prefixes(&self, cursor: &mut Cursor) -> Result<Items<Sign>, Refusal>
        ensures { Parses (Star prefix_ops) prefixes_of cursor.old cursor.new result }
    {
        let mut prefixes = Items::new(self.alloc);
        'prefixes: while let Some(prefix) = prefix(cursor.kind()) {
            let token = cursor.advance();
            prefixes.push(Sign {
                prefix,
                span: token.span,
            })?;
        }
        Ok(prefixes)
    }

    /// {"!" | "~"}, the nearest to the operand first.
    pub(crate) fn signs(&self, cursor: &mut Cursor) -> Result<Items<Sign>, Refusal>
        ensures { Parses (Star prefix_ops) signs_of cursor.old cursor.new result }
    {
        let prefixes = self.prefixes(cursor)?;
        let mut signs = prefixes.into_vec();
        signs.reverse();
        Ok(Items::from_vec(signs))
    }

    /// An operand alone is itself.
    pub fn signed(&self, operand: Expr, signs: Items<Sign>) -> Result<Expr, AllocError>
        ensures { IfOk result (λ expr. expr ≡ signed operand signs) }
    {
        if signs.is_empty() {
            Ok(operand)
        } else {
            let operand = Boxed::new(self.alloc, operand)?;
            Ok(Expr::Unary(operand, signs))
        }
    }
}

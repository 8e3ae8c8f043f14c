//! How large the let-normal form of a part of a source is. A count of 2^32 or more is kept as 2^32 - 1.

use std::cmp::max;

/// Counts of statements, with one more for each inlined call; of their executions, each as often as the loops around it
/// turn; of the loops around one statement; and of the cells of arrays.
#[derive(Clone, Copy, PartialEq, Eq)]
pub struct Size {
    pub statements: u32,
    pub weights: u32,
    pub nesting: u32,
    pub cells: u32,
}

impl Size {
    ghost use Rattle.vd_resolve.specs.Sizes.{nothing, one, also, repeated, inlined, array_of, IsCapped};

    pub fn nothing() -> Size
        ensures { IsCapped result nothing }
    {
        Size {
            statements: 0,
            weights: 0,
            nesting: 0,
            cells: 0,
        }
    }

    /// One statement.
    pub fn one() -> Size
        ensures { IsCapped result one }
    {
        Size {
            statements: 1,
            weights: 1,
            nesting: 0,
            cells: 0,
        }
    }

    /// The statement that makes an array.
    pub fn array_of(cells: u32) -> Size
        ensures { IsCapped result (array_of cells) }
    {
        Size {
            statements: 1,
            weights: 1,
            nesting: 0,
            cells,
        }
    }

    /// One after another.
    pub fn also(self, next: Size) -> Size
        ensures { (x y : Self) → IsCapped self x → IsCapped next y → IsCapped result (also x y) }
    {
        Size {
            statements: self.statements.saturating_add(next.statements),
            weights: self.weights.saturating_add(next.weights),
            nesting: max(self.nesting, next.nesting),
            cells: self.cells.saturating_add(next.cells),
        }
    }

    /// In a loop of so many turns.
    pub fn repeated(self, count: u32) -> Size
        ensures { (x : Self) → IsCapped self x → IsCapped result (repeated count x) }
    {
        Size {
            statements: self.statements,
            weights: self.weights.saturating_mul(count),
            nesting: self.nesting.saturating_add(1),
            cells: self.cells,
        }
    }

    /// In the place of a call, which counts as one more statement.
    pub fn inlined(self) -> Size
        ensures { (x : Self) → IsCapped self x → IsCapped result (inlined x) }
    {
        Size {
            statements: self.statements.saturating_add(1),
            ..self
        }
    }
}

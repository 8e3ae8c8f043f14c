//! Where an answer stands, and how code is printed.

use std::io::{self, Write};
use vd_duet::{Part, Parts};
use vd_execution::{Line, Reg};

/// The register of the first part, or register 0.
pub(crate) fn first_of(x: &Parts) -> Reg {
    match x.as_slice() {
        [part, ..] => part.1.0,
        [] => Reg(0),
    }
}

/// Prints a name, each line of code, and where the answer stands.
pub(crate) fn print_code<W: Write>(
    to: &mut W,
    name: &str,
    lines: &[Line],
    answer: Reg,
) -> io::Result<()> {
    writeln!(to, "{name}:")?;
    for line in lines {
        writeln!(to, "{line:?}")?;
    }
    writeln!(to, "the answer stands in {answer:?}")
}

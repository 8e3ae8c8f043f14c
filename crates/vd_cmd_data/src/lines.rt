//! Empty lines, which a reader of tables passes over.

ghost use Rattle.std.specs.Prelude.{◌≡◌, ◌<◌, ◌-◌, ◌^◌};
ghost use Rattle.vd_cmd_data.specs.Tables as tables;

/// What is known of the lines of a text up to a byte.
#[derive(Clone, Copy)]
pub(crate) struct LineScan {
    /// The byte before; at the start an end of line.
    pub before: u8,
    /// The number of the line, from 1 on.
    pub line: usize,
    /// The first empty line so far.
    pub first: Option<usize>,
    /// The first empty line that has something behind it.
    pub empty: Option<usize>,
}

/// Whether a byte ends a line.
fn is_break(byte: u8) -> bool
    ensures { result ≡ tables.is_break byte }
{
    byte == b'\r' || byte == b'\n'
}

/// Whether a byte ends a line that the byte before it does not end.
fn ends_line(before: u8, byte: u8) -> bool
    ensures { result ≡ tables.ends_line before byte }
{
    is_break(byte) && !(before == b'\r' && byte == b'\n')
}

/// What is known behind one more byte.
fn after_byte(scan: LineScan, byte: u8) -> LineScan
    requires { scan.line < 2 ^ 64 - 1 }
    ensures { result ≡ tables.after_byte scan byte }
{
    if ends_line(scan.before, byte) {
        let first = if is_break(scan.before) {
            scan.first.or(Some(scan.line))
        } else {
            scan.first
        };
        return LineScan {
            before: byte,
            line: scan.line + 1,
            first,
            empty: scan.empty,
        };
    }
    let empty = if is_break(byte) {
        scan.empty
    } else {
        scan.empty.or(scan.first)
    };
    LineScan {
        before: byte,
        line: scan.line,
        first: scan.first,
        empty,
    }
}

/// The first line that is empty and has others behind it.
#[tactic(auto, using(crate::proofs::EmptyLines::none_scanned, crate::proofs::EmptyLines::one_scanned, crate::proofs::EmptyLines::all_scanned))]
pub(crate) fn empty_line(text: &[u8]) -> Option<usize>
    ensures { result ≡ tables.empty_line text.now }
{
    let mut scan = LineScan {
        before: b'\n',
        line: 1,
        first: None,
        empty: None,
    };
    for byte in text {
        scan = after_byte(scan, *byte);
    }
    scan.empty
}

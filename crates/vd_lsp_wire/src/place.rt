//! Places of a text as an editor counts them.

ghost use Rattle.std.specs.Prelude.{◌≡◌, take};
ghost use Rattle.std.specs.List.{count_by};
ghost use Rattle.vd_lsp_wire.specs.Places as places;

/// A line and a column, both from 0; the column is counted in units of UTF-16.
#[derive(Clone, Copy)]
pub struct Place {
    pub line: usize,
    pub column: usize,
}

/// The bytes before an offset; an offset behind the end counts as the end.
fn front(bytes: &[u8], offset: usize) -> &[u8]
    ensures { result.now ≡ take offset bytes.now }
{
    &bytes[..offset.min(bytes.len())]
}

/// Whether a byte is one of those that end a line.
fn is_line_end(byte: u8) -> bool
    ensures { result ≡ places.is_line_end byte }
{
    byte == b'\n' || byte == b'\r'
}

/// Whether a line ends with this byte, which stands behind that one: an LF behind a CR ends the line that the CR has ended.
fn ends_line(before: u8, byte: u8) -> bool
    ensures { result ≡ places.ends_line before byte }
{
    byte == b'\r' || (byte == b'\n' && before != b'\r')
}

/// How many lines end in these bytes.
#[tactic(auto, using(crate::proofs::LineSteps::one_line, crate::proofs::LineSteps::no_line))]
fn lines(bytes: &[u8]) -> usize
    ensures { result ≡ places.lines bytes.now }
{
    let mut count = 0;
    let mut before = 0;
    for byte in bytes {
        if ends_line(before, *byte) {
            count += 1;
        }
        before = *byte;
    }
    count
}

/// The bytes behind the last line end, or all where there is none.
fn last_line(bytes: &[u8]) -> &[u8]
    ensures { result.now ≡ places.last_line bytes.now }
{
    let mut start = 0;
    for (place, byte) in bytes.iter().enumerate() {
        if is_line_end(*byte) {
            start = place + 1;
        }
    }
    &bytes[start..]
}

/// How many characters begin in these bytes.
fn beginnings(bytes: &[u8]) -> usize
    ensures { result ≡ count_by places.begins bytes.now }
{
    bytes
        .iter()
        .filter(|byte| **byte < 128 || **byte >= 192)
        .count()
}

/// How many characters above U+FFFF begin in these bytes.
fn pairs(bytes: &[u8]) -> usize
    ensures { result ≡ count_by places.begins_pair bytes.now }
{
    bytes.iter().filter(|byte| **byte >= 240).count()
}

/// The place of an offset; an offset behind the end counts as the end.
pub fn place_of(bytes: &[u8], offset: usize) -> Place
    ensures { result ≡ places.place_of bytes.now offset }
{
    let front = front(bytes, offset);
    let line = last_line(front);
    Place {
        line: lines(front),
        column: beginnings(line) + pairs(line),
    }
}

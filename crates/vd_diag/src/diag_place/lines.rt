//! The line at which an offset stands.

ghost use Rattle.std.specs.Prelude.{◌≡◌, take, drop};
ghost use Rattle.std.specs.List.{prefix_len};
ghost use Rattle.vd_diag.specs.Lines as lines;

/// The bytes before an offset; an offset behind the end counts as the end.
fn front(bytes: &[u8], offset: usize) -> &[u8]
    ensures { result.now ≡ take offset bytes.now }
{
    &bytes[..offset.min(bytes.len())]
}

/// The bytes from an offset on.
fn rest(bytes: &[u8], offset: usize) -> &[u8]
    ensures { result.now ≡ drop offset bytes.now }
{
    &bytes[offset.min(bytes.len())..]
}

/// The number of the line at which an offset stands. The first line has number 1.
pub fn line_number(bytes: &[u8], offset: usize) -> usize
    ensures { result ≡ lines.line_number bytes.now offset }
{
    let mut number = 1;
    for byte in front(bytes, offset) {
        if *byte == b'\n' {
            number += 1;
        }
    }
    number
}

/// The bytes behind the last LF, or all where there is none.
fn last_line(bytes: &[u8]) -> &[u8]
    ensures { result.now ≡ lines.last_line bytes.now }
{
    let mut start = 0;
    for (place, byte) in bytes.iter().enumerate() {
        if *byte == b'\n' {
            start = place + 1;
        }
    }
    &bytes[start..]
}

/// The bytes before an offset that stand in its line.
pub(crate) fn line_before(bytes: &[u8], offset: usize) -> &[u8]
    ensures { result.now ≡ lines.line_before bytes.now offset }
{
    last_line(front(bytes, offset))
}

/// How many bytes stand at the front that end no line.
fn line_len(bytes: &[u8]) -> usize
    ensures { result ≡ prefix_len lines.is_in_line bytes.now }
{
    bytes.iter().take_while(|byte| **byte != b'\n').count()
}

/// The bytes from an offset to the end of its line.
pub fn line_behind(bytes: &[u8], offset: usize) -> &[u8]
    ensures { result.now ≡ lines.line_behind bytes.now offset }
{
    let rest = rest(bytes, offset);
    &rest[..line_len(rest)]
}

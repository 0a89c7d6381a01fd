//! The lines of a text.

ghost use Rattle.std.specs.Prelude.{◌≡◌, ◌<◌, ◌≤◌, ◌∷◌, length, take, drop, nat_eq};
ghost use Rattle.std.specs.List.{position_or_len};
ghost use Rattle.job.specs.Lines.{lines_of, content};

/// The length of the first line, with the LF that ends it.
pub fn line_len(text: &[u8]) -> usize
    requires { 0 < length text.now }
    ensures within { result ≤ length text.now }
    ensures some { 0 < result }
    ensures first { lines_of text.now ≡ take result text.now ∷ lines_of (drop result text.now) }
{
    let before = len_before(text, b'\n');
    if before < text.len() {
        before + 1
    } else {
        text.len()
    }
}

/// How many bytes stand before the first of these, or before the end.
pub fn len_before(text: &[u8], end: u8) -> usize
    ensures { result ≡ position_or_len (λ b. nat_eq b end) text.now }
{
    text.iter().take_while(|byte| **byte != end).count()
}

/// What a line says: without its LF, and without one CR directly before that.
pub fn content_of(line: &[u8]) -> &[u8]
    ensures { result.now ≡ content line.now }
{
    match line.strip_suffix(b"\n") {
        None => line,
        Some(text) => text.strip_suffix(b"\r").unwrap_or(text),
    }
}

//! White space and comments.

ghost use Rattle.std.specs.Prelude.{◌≡◌, ◌+◌, ◌≤◌, ◌<◌, false, length, take, drop, nat_eq, not, IfSome, IfNone, ℕ, MatchOption};
ghost use Rattle.std.specs.List.{prefix_len};
ghost use Rattle.c_tokens.specs.Blank.{IsBlank, IsBlankPart};
ghost use Rattle.c_tokens.specs.inner.Scan.{begins_blank, IsCloseAt};

/// The length of the white space and whole comments that the bytes begin with.
pub(crate) fn blank_len(bytes: &[u8]) -> usize
    ensures inside { result ≤ length bytes.now }
    ensures blank { IsBlank (take result bytes.now) (drop result bytes.now) }
    ensures longest { begins_blank (drop result bytes.now) ≡ false }
{
    let mut len = 0;
    while let Some(part) = blank_part_len(&bytes[len..]) {
        len += part;
    }
    len
}

/// The length of the white byte or the whole comment that the bytes begin with.
fn blank_part_len(bytes: &[u8]) -> Option<usize>
    ensures inside { IfSome result (λ len. (0 < len) × (len ≤ length bytes.now)) }
    ensures blank { MatchOption result (begins_blank bytes.now ≡ false)
        (λ len. IsBlankPart (take len bytes.now) (drop len bytes.now)) }
{
    match bytes {
        [b' ' | b'\t' | b'\n' | b'\r', ..] => Some(1),
        [b'/', b'/', body @ ..] => Some(2 + line_len(body)),
        // The `*/` takes as many bytes as the `/*`. Nothing where no `*/` follows.
        [b'/', b'*', body @ ..] => Some(4 + close_at(body)?),
        _ => None,
    }
}

/// How many bytes stand before the first LF, or before the end.
fn line_len(bytes: &[u8]) -> usize
    ensures { result ≡ prefix_len (λ b. not (nat_eq b 10)) bytes.now }
{
    bytes.iter().take_while(|byte| **byte != b'\n').count()
}

/// Where the first `*/` stands.
fn close_at(bytes: &[u8]) -> Option<usize>
    ensures inside { IfSome result (λ place. place + 1 < length bytes.now) }
    ensures here { IfSome result (IsCloseAt bytes.now) }
    ensures first { IfSome result (λ place. (k : ℕ) → k < place → IsCloseAt bytes.now k → ⊥) }
    ensures none { IfNone result ((k : ℕ) → k + 1 < length bytes.now → IsCloseAt bytes.now k → ⊥) }
{
    bytes.windows(2).position(|pair| pair == b"*/".as_slice())
}

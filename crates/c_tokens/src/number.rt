//! Numbers.

ghost use Rattle.std.specs.Prelude.{◌≡◌, ◌≢◌, ℕ, pos, ◌<◌, ◌≤◌, ◌^◌, IsTrue, slice_index, SomeIff, MatchOption};
ghost use Rattle.std.specs.List.{All};
ghost use Rattle.std.specs.Str.Parse.{IsNumeral, digits_value};
ghost use Rattle.c_tokens.specs.Bytes.{is_digit, is_word_byte, begins};
ghost use Rattle.c_tokens.specs.Spell.{IsNumber};
ghost use Rattle.c_tokens.specs.inner.Scan.{IsTokenOrRefusal};

use crate::token::{Kind, LexRefusal};
use crate::word::run_len;

/// The number that a run of letters, digits and `_` stands for, which begins with a digit. Nothing
/// where it is none.
fn number_of(run: &[u8]) -> Option<i64>
    requires first { IsTrue (begins is_digit run.now) }
    requires word { All (λ b. IsTrue (is_word_byte b)) run.now }
    ensures { MatchOption result ((value : ℕ) → IsNumber run.now value → ⊥)
        (λ number. (value : ℕ) × (number ≡ pos value) × IsNumber run.now value) }
{
    match run.strip_prefix(b"0x") {
        Some(digits) => digits_value(digits, 16),
        None if run.len() > 1 && run[0] == b'0' => None,
        None => digits_value(run, 10),
    }
}

/// The number that these digits write in this radix. Nothing where a byte is no digit, or the number
/// passes the greatest `i64`.
fn digits_value(digits: &[u8], radix: u32) -> Option<i64>
    requires low { 2 ≤ radix }
    requires high { radix ≤ 36 }
    requires no_plus { slice_index digits.now 0 ≢ 43 }
    requires no_minus { slice_index digits.now 0 ≢ 45 }
    ensures { let value = digits_value radix digits.now in
        SomeIff result (IsNumeral radix digits.now × (value < 2 ^ 63)) (pos value) }
{
    let text = str::from_utf8(digits).ok()?;
    i64::from_str_radix(text, radix).ok()
}

/// The number that the bytes begin with, and its length.
pub(crate) fn number_token(bytes: &[u8], line: u32) -> Result<(Kind, usize), LexRefusal>
    requires { IsTrue (begins is_digit bytes.now) }
    ensures { IsTokenOrRefusal bytes.now line result }
{
    let len = run_len(bytes);
    match number_of(&bytes[..len]) {
        Some(number) => Ok((Kind::Number(number), len)),
        None => Err(LexRefusal::Number { line }),
    }
}

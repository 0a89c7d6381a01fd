//! Numbers in decimal, each written in one way.
ghost use Rattle.std.specs.Prelude.{◌≡◌, ◌≢◌, ℕ, ℤ, ◌^◌, ◌<◌, ◌↔◌, IsTrue, IfSome, IfNone, decimal};
ghost use Rattle.std.specs.Fmt.{signed_decimal};
ghost use Rattle.std.specs.Char.{is_ascii_digit};
ghost use Rattle.std.specs.List.{list_all};
ghost use Rattle.fields.specs.inner.Decimal.{IsDecimal};
ghost use Rattle.fields.specs.Numbers.{IsWord, number_of, u32_of, word_of};

/// The number that is written so: in decimal, without leading zeros.
pub fn read_number(text: &[u8]) -> Option<u64>
    ensures found { IfSome result (λ n. text.now ≡ decimal n) }
    ensures none { IfNone result ((n : ℕ) → n < 2 ^ 64 → text.now ≢ decimal n) }
    ensures is { result ≡ number_of text.now }
{
    parse_decimal(text)
}

/// Reads a number, if the text is one.
fn parse_decimal(text: &[u8]) -> Option<u64>
    ensures small { IfSome result (λ n. n < 2 ^ 64) }
    ensures found { IfSome result (λ n. text.now ≡ decimal n) }
    ensures none { IfNone result ((n : ℕ) → n < 2 ^ 64 → text.now ≢ decimal n) }
{
    if !is_decimal(text) {
        return None;
    }
    str::from_utf8(text).ok()?.parse().ok()
}

/// Whether a text is digits, at least one, and begins with 0 only where it is 0.
fn is_decimal(text: &[u8]) -> bool
    ensures { IsTrue result ↔ IsDecimal text.now }
{
    match text {
        [] => false,
        [b'0', _, ..] => false,
        _ => are_digits(text),
    }
}

/// Whether each byte is a digit.
fn are_digits(text: &[u8]) -> bool
    ensures { result ≡ list_all is_ascii_digit text.now }
{
    text.iter().all(|byte| byte.is_ascii_digit())
}

/// The number below 2^32 that is written so.
#[tactic(auto, unfolding(crate::specs::Numbers::u32_of))]
pub fn read_u32(text: &[u8]) -> Option<u32>
    ensures found { IfSome result (λ n. text.now ≡ decimal n) }
    ensures is { result ≡ u32_of text.now }
{
    let number = read_number(text)?;
    u32::try_from(number).ok()
}

/// The word that is written so: as a number, with a `-` in front of a negative one.
pub fn read_word(text: &[u8]) -> Option<i64>
    ensures found { IfSome result (λ word. text.now ≡ signed_decimal word) }
    ensures none { IfNone result ((word : ℤ) → IsWord word → text.now ≢ signed_decimal word) }
    ensures is { result ≡ word_of text.now }
{
    parse_word(text)
}

/// Reads a word, if the text is one.
fn parse_word(text: &[u8]) -> Option<i64>
    ensures small { IfSome result IsWord }
    ensures found { IfSome result (λ word. text.now ≡ signed_decimal word) }
    ensures none { IfNone result ((word : ℤ) → IsWord word → text.now ≢ signed_decimal word) }
{
    match text.strip_prefix(b"-") {
        None => i64::try_from(parse_decimal(text)?).ok(),
        Some(digits) => {
            let above = parse_decimal(digits)?.checked_sub(1)?;
            Some(-1 - i64::try_from(above).ok()?)
        }
    }
}

//! Numbers in decimal.

ghost use Rattle.std.specs.Prelude.{◌≡◌, ◌<◌, ◌≤◌, false, length, IfNone, IfSome};
ghost use Rattle.std.specs.Char.{digit_value};
ghost use Rattle.lat_text.specs.Numbers.{is_padded, number_of, number_within, moment_of};

/// Moments are below this.
const MOMENTS: u64 = 1_000_000_000_000_000;

/// Numbers of so many digits are below 2^64.
const SAFE_DIGITS: usize = 19;

// Whether a text has a sign or a needless 0 in front.
fn is_padded(text: &[u8]) -> bool
    ensures { result ≡ is_padded text.now }
{
    match text {
        [first, rest @ ..] => *first == b'+' || *first == b'0' && !rest.is_empty(),
        [] => false,
    }
}

// The value of a decimal digit.
fn digit_of(byte: u8) -> Option<u64>
    ensures value { IfSome result (λ digit. (digit ≡ digit_value byte) × (digit < 10)) }
    ensures none { IfNone result (10 ≤ digit_value byte) }
{
    if byte.is_ascii_digit() {
        Some(u64::from(byte - b'0'))
    } else {
        None
    }
}

// The number that so few digits write that it is below 2^64. None where a byte is no digit.
fn safe_number_of(text: &[u8]) -> Option<u64>
    requires some { 0 < length text.now }
    requires few { length text.now ≤ 19 }
    requires plain { is_padded text.now ≡ false }
    ensures { result ≡ number_of text.now }
{
    let mut number: u64 = 0;
    for byte in text {
        number = number * 10 + digit_of(*byte)?;
    }
    Some(number)
}

// The number that a text is, in decimal without a sign or a needless 0. None where it is no such number, or one that
// isn't below 2^64.
fn number_of(text: &[u8]) -> Option<u64>
    ensures { result ≡ number_of text.now }
{
    if is_padded(text) {
        return None;
    }
    if !text.is_empty() && text.len() <= SAFE_DIGITS {
        return safe_number_of(text);
    }
    std::str::from_utf8(text).ok()?.parse().ok()
}

/// The number that a text is in decimal, without a sign or a needless 0: so much at least and so much at most.
pub fn number_within(least: u64, most: u64, text: &[u8]) -> Option<u64>
    ensures value { result ≡ number_within least most text.now }
    ensures least { IfSome result (λ n. least ≤ n) }
    ensures most { IfSome result (λ n. n ≤ most) }
{
    let number = number_of(text)?;
    if least <= number && number <= most {
        Some(number)
    } else {
        None
    }
}

/// The moment that a text is: a number below 10^15.
pub fn moment_of(text: &[u8]) -> Option<u64>
    ensures { result ≡ moment_of text.now }
{
    let number = number_of(text)?;
    if number < MOMENTS { Some(number) } else { None }
}

//! Numbers of one and two bytes as they are written, and numbers of lines.

ghost use Rattle.std.specs.Prelude.{◌≡◌, ◌≤◌, IfSome};
ghost use Rattle.lat_text.specs.Numbers.{number_within};
ghost use Rattle.lat_schedule.specs.Listed.{saturated_number};

use lat_text::number_within;

/// The number of one byte that a text is: so much at least and so much at most.
pub fn byte_within(least: u8, most: u8, text: &[u8]) -> Option<u8>
    ensures value { result ≡ number_within least most text.now }
    ensures range { IfSome result (λ n. (least ≤ n) × (n ≤ most)) }
{
    let number = number_within(u64::from(least), u64::from(most), text)?;
    Some(number as u8)
}

/// The number of two bytes that a text is: so much at least and so much at most.
pub fn short_within(least: u16, most: u16, text: &[u8]) -> Option<u16>
    ensures value { result ≡ number_within least most text.now }
    ensures range { IfSome result (λ n. (least ≤ n) × (n ≤ most)) }
{
    let number = number_within(u64::from(least), u64::from(most), text)?;
    Some(number as u16)
}

/// A line number, saturated at the greatest of 32 bits.
pub fn saturated_number(number: usize) -> u32
    ensures { result ≡ saturated_number number }
{
    number.min(u32::MAX as usize) as u32
}

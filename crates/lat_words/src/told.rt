//! What is said of a fault of the words.

ghost use Rattle.std.specs.Prelude.{◌≡◌, ◌++◌, IfOk, OnOk, string_bytes};
ghost use Rattle.lat_words.specs.declared.fault.WordsFault.TheVariants as faults;
ghost use Rattle.lat_words.specs.Told.{byte_said, value_said, option_said, expected_said, not_said, fault_said};

use crate::fault::{Expected, OptionName, WordsFault};
use lat_base::Bytes;
use lat_text::byte_onto;
use std::alloc::{AllocError, Global};

fn byte_said(text: &mut String, byte: u8) -> Result<(), AllocError>
    ensures { OnOk result (string_bytes text.new ≡ string_bytes text.old ++ byte_said byte) }
{
    if matches!(byte, 0x20..=0x7e) {
        return text.push(char::from(byte));
    }
    text.push('%')?;
    byte_onto(text, byte)
}

fn value_said(text: &mut String, value: &[u8]) -> Result<(), AllocError>
    ensures { OnOk result (string_bytes text.new ≡ string_bytes text.old ++ value_said value.now) }
{
    for byte in value {
        byte_said(text, *byte)?;
    }
    Ok(())
}

fn option_said(text: &mut String, option: OptionName) -> Result<(), AllocError>
    ensures { OnOk result (string_bytes text.new ≡ string_bytes text.old ++ option_said option) }
{
    let word = option.text();
    match option {
        OptionName::Peer => text.push_str("peer"),
        _ => write!(text, "--{word}"),
    }
}

fn expected_said(text: &mut String, expected: Expected) -> Result<(), AllocError>
    ensures { OnOk result (string_bytes text.new ≡ string_bytes text.old ++ expected_said expected) }
{
    match expected {
        Expected::Needed => text.push_str("needed"),
        Expected::One => text.push_str("one value alone"),
        Expected::Role => text.push_str("server, switch, node or tariff"),
        Expected::Name => text.push_str("a name of 1 to 16 bytes"),
        Expected::Address => text.push_str("12 hex digits"),
        Expected::Number { least, most } => write!(text, "{least} to {most}"),
        Expected::Service => text.push_str("NAME or NAME=PORT, a port of 1 to 65535"),
        Expected::Most(most) => write!(text, "{most} at most"),
        Expected::OtherService => text.push_str("each service once"),
        Expected::Rate => {
            text.push_str("NAME=free, NAME=each:N or NAME=while-free:N, N of 1 to 255")
        }
        Expected::Offered => text.push_str("a service that is offered"),
        Expected::Offer(lines) => {
            write!(
                text,
                "LINE=NAME=PORT, a line of 1 to {lines}, a port of 1 to 65535"
            )
        }
        Expected::OtherLine => text.push_str("each line once"),
        Expected::Groups => text.push_str("groups of 0 to 255, as 0,3,7-9"),
        Expected::Level => text.push_str("off, error, info or debug"),
        Expected::OtherRole => text.push_str("none in this role"),
    }
}

fn not_said(text: &mut String, value: &Option<Bytes>) -> Result<(), AllocError>
    ensures { OnOk result (string_bytes text.new ≡ string_bytes text.old ++ not_said value.now) }
{
    let Some(value) = value else {
        return Ok(());
    };
    text.push_str(", not \"")?;
    value_said(text, value.as_slice())?;
    text.push_str("\"")
}

// The line of a wrong value.
fn option_line(
    text: &mut String,
    option: OptionName,
    value: &Option<Bytes>,
    expected: Expected,
) -> Result<(), AllocError>
    ensures { OnOk result
        (string_bytes text.new ≡ string_bytes text.old ++ fault_said (faults.Option option value.now expected)) }
{
    text.push_str("latd: ")?;
    option_said(text, option)?;
    text.push_str(": ")?;
    expected_said(text, expected)?;
    not_said(text, value)?;
    text.push_str("\n")
}

// The line of a word that `clap` doesn't take.
fn word_line(text: &mut String, word: &[u8]) -> Result<(), AllocError>
    ensures { OnOk result (string_bytes text.new ≡ string_bytes text.old ++ fault_said (faults.Word word.now)) }
{
    text.push_str("latd: ")?;
    value_said(text, word)?;
    text.push_str(": no word of latd\n")
}

/// The line that `latd` says of a fault: the option, what was expected, and the value that was no such one.
pub fn fault_text(alloc: Global, fault: &WordsFault) -> Result<String, AllocError>
    ensures { IfOk result (λ text. string_bytes text ≡ fault_said fault.now) }
{
    let mut text = String::new(alloc);
    match fault {
        WordsFault::Memory => text.push_str("latd: no memory\n")?,
        WordsFault::Word(word) => word_line(&mut text, word.as_slice())?,
        WordsFault::Option {
            option,
            value,
            expected,
        } => option_line(&mut text, *option, value, *expected)?,
    }
    Ok(text)
}

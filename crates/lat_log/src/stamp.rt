//! Moments in print, in UTC.

ghost use Rattle.std.specs.Prelude.{◌≡◌, ◌++◌, ◌*ℤ◌, pos, OnOk, string_bytes};
ghost use Rattle.jiff_core.specs.DateTime.{civil_nanos};
ghost use Rattle.lat_log.specs.Stamps.{StampAdded, thousandths, whole_second};

use jiff::Timestamp;
use jiff::civil::DateTime;
use jiff::tz::Offset;
use std::alloc::AllocError;

/// The last second that has a date at every offset, counted from 1970-01-01T00:00:00Z.
const LAST_SECOND: u64 = 253_402_207_200;

// The second of a moment.
fn whole_second(ms: u64) -> i64
    ensures { result ≡ pos (whole_second ms) }
{
    (ms / 1000).min(LAST_SECOND) as i64
}

// The date and the time of a moment, to the second.
fn civil(ms: u64) -> DateTime
    ensures { civil_nanos result ≡ pos (whole_second ms) *ℤ pos 1_000_000_000 }
{
    match Timestamp::from_second(whole_second(ms)) {
        Ok(moment) => Offset::UTC.to_datetime(moment),
        Err(_) => unreachable!(),
    }
}

fn thousandths_onto(text: &mut String, n: u64) -> Result<(), AllocError>
    ensures { OnOk result (string_bytes text.new ≡ string_bytes text.old ++ thousandths n) }
{
    let (hundreds, tens, ones) = (n / 100, n / 10 % 10, n % 10);
    write!(text, ".{hundreds}{tens}{ones}Z")
}

/// Adds a moment, in milliseconds since 1970-01-01T00:00:00Z: `2026-12-01T04:00:00.123Z`. From 9999-12-30T22:00:00Z on the
/// second stays.
pub fn stamp_onto(text: &mut String, ms: u64) -> Result<(), AllocError>
    ensures { OnOk result (StampAdded ms (string_bytes text.old) (string_bytes text.new)) }
{
    let civil = civil(ms);
    write!(text, "{civil}")?;
    thousandths_onto(text, ms % 1000)
}

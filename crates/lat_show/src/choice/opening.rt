//! The groups that are listened to.

ghost use Rattle.std.specs.Prelude.{◌≡◌, ◌+◌, ◌≤◌, length};
ghost use Rattle.lat_text.specs.Lines.{lines_of};
ghost use Rattle.lat_show.specs.choice.Entries.{groups_of};
ghost use Rattle.lat_show.specs.choice.ChooseOf.{opening_of};

use lat_text::{first_line, first_word, mask_of};

/// All groups.
const ALL: [u8; 32] = [255; 32];

// The mask that a line `groups HEX` gives.
fn groups_of(line: &[u8]) -> Option<[u8; 32]>
    ensures { result ≡ groups_of line.now }
{
    let (word, digits) = first_word(line)?;
    if word == "groups".as_bytes() {
        mask_of(digits)
    } else {
        None
    }
}

/// The groups that are listened to, the number of the first line of the entries, and these lines: behind a first line
/// that gives the groups, or all lines and all groups.
pub fn opening(input: &[u8]) -> ([u8; 32], usize, &[u8])
    ensures opens { record { groups = result.0; number = result.1; lines = lines_of result.2.now }
        ≡ opening_of (lines_of input.now) }
    ensures number { result.1 + length result.2.now ≤ length input.now + 1 }
{
    if let Some((line, behind)) = first_line(input) {
        if let Some(groups) = groups_of(line) {
            return (groups, 2, behind);
        }
    }
    (ALL, 1, input)
}

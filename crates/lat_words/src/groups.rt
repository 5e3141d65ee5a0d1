//! The groups that an option lists.

ghost use Rattle.std.specs.Prelude.{◌≡◌, ◌≤◌, ◌<◌, map, length, IfSome};
ghost use Rattle.lat_text.specs.Numbers as numbers;
ghost use Rattle.lat_words.specs.Groups.{sign_at, range_of, with_group, with_range, with_piece, groups_of, groups_in};

use crate::fault::{Expected, OptionName, Wrong, wrong_at};
use lat_text::number_within;

// The first place of a byte.
pub(crate) fn sign_at(sign: u8, text: &[u8]) -> Option<usize>
    ensures value { result ≡ sign_at sign text.now }
    ensures within { IfSome result (λ at. at < length text.now) }
{
    text.iter().position(|b| *b == sign)
}

fn group_within(least: u8, text: &[u8]) -> Option<u8>
    ensures value { result ≡ numbers.number_within least 255 text.now }
    ensures least { IfSome result (λ group. least ≤ group) }
{
    Some(number_within(u64::from(least), 255, text)? as u8)
}

// A group alone, or the first and the last of several.
fn range_of(text: &[u8]) -> Option<(u8, u8)>
    ensures value { result ≡ range_of text.now }
    ensures order { IfSome result (λ r. r.0 ≤ r.1) }
{
    match sign_at(b'-', text) {
        None => {
            let group = group_within(0, text)?;
            Some((group, group))
        }
        Some(hyphen) => {
            let first = group_within(0, &text[..hyphen])?;
            let last = group_within(first, &text[hyphen + 1..])?;
            Some((first, last))
        }
    }
}

fn with_group(mut mask: [u8; 32], group: u8) -> [u8; 32]
    ensures { result ≡ with_group mask group }
{
    mask[usize::from(group / 8)] |= 1 << (group % 8);
    mask
}

fn with_range(mut mask: [u8; 32], first: u8, last: u8) -> [u8; 32]
    requires { first ≤ last }
    ensures { result ≡ with_range mask (first, last) }
{
    for group in first..=last {
        let next = with_group(mask, group);
        mask = next;
    }
    mask
}

fn with_piece(mask: [u8; 32], text: &[u8]) -> Option<[u8; 32]>
    ensures { result ≡ with_piece mask text.now }
{
    let (first, last) = range_of(text)?;
    Some(with_range(mask, first, last))
}

fn groups_of(text: &[u8]) -> Option<[u8; 32]>
    ensures { result ≡ groups_of text.now }
{
    let mut mask = [0; 32];
    let mut rest = text;
    while let Some(comma) = sign_at(b',', rest) {
        let (piece, _) = rest.split_at(comma);
        let (_, behind) = rest.split_at(comma + 1);
        mask = with_piece(mask, piece)?;
        rest = behind;
    }
    with_piece(mask, rest)
}

pub(crate) fn groups_in(texts: &[&str]) -> Result<Option<[u8; 32]>, Wrong>
    ensures { result ≡ groups_in (map (λ t. t.now) texts.now) }
{
    match texts {
        [] => Ok(None),
        [text] => match groups_of(text.as_bytes()) {
            Some(mask) => Ok(Some(mask)),
            None => Err(wrong_at(OptionName::Groups, 0, Expected::Groups)),
        },
        _ => Err(wrong_at(OptionName::Groups, 1, Expected::One)),
    }
}

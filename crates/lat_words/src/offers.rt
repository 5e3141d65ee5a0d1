//! Which lines offer a service, by the words.

ghost use Rattle.std.specs.Prelude.{◌≡◌, ℕ, true, map, IfOk};
ghost use Rattle.lat_words.specs.Options.{each_from, none};
ghost use Rattle.lat_words.specs.Offers.{is_offering, offered_by, with_offer, offers_in};
ghost use Rattle.lat_words.specs.Within.{AreOffers, is_line};

use crate::config::Role;
use crate::fault::{Expected, OptionName, Wrong, wrong_at};
use crate::pieces::offer_of;
use crate::settings::{OFFERS, Offer};
use arrayvec::ArrayVec;

/// Whether one of the offers is of the line.
pub(crate) fn is_offering(line: u8, offers: &[Offer]) -> bool
    ensures { result ≡ is_offering line offers.now }
{
    offers.iter().any(|o| o.line == line)
}

// The offers with one more.
fn offered_by(
    place: usize,
    mut got: ArrayVec<Offer, OFFERS>,
    offer: Offer,
) -> Result<ArrayVec<Offer, OFFERS>, Wrong>
    ensures value { result ≡ offered_by place got offer }
    ensures offers { (lines : ℕ) → AreOffers lines got.items → is_line lines offer ≡ true
        → IfOk result (λ r. AreOffers lines r.items) }
{
    if is_offering(offer.line, got.as_slice()) {
        return Err(wrong_at(OptionName::Offer, place, Expected::OtherLine));
    }
    if got.len() == OFFERS {
        return Err(wrong_at(OptionName::Offer, place, Expected::Most(32)));
    }
    got.push(offer);
    Ok(got)
}

// The offers with that of one more value.
fn with_offer(
    lines: u8,
    place: usize,
    got: ArrayVec<Offer, OFFERS>,
    text: &str,
) -> Result<ArrayVec<Offer, OFFERS>, Wrong>
    ensures value { result ≡ with_offer lines place got text.now }
    ensures offers { AreOffers lines got.items → IfOk result (λ r. AreOffers lines r.items) }
{
    match offer_of(lines, text.as_bytes()) {
        Some(offer) => offered_by(place, got, offer),
        None => Err(wrong_at(OptionName::Offer, place, Expected::Offer(lines))),
    }
}

fn said_offers(lines: u8, texts: &[&str]) -> Result<ArrayVec<Offer, OFFERS>, Wrong>
    ensures value { result ≡ each_from (with_offer lines) 0 none (map (λ t. t.now) texts.now) }
    ensures offers { IfOk result (λ r. AreOffers lines r.items) }
{
    let mut got = ArrayVec::new();
    for i in 0..texts.len() {
        got = with_offer(lines, i, got, texts[i])?;
    }
    Ok(got)
}

pub(crate) fn offers_in(
    role: Role,
    lines: u8,
    texts: &[&str],
) -> Result<ArrayVec<Offer, OFFERS>, Wrong>
    ensures value { result ≡ offers_in role lines (map (λ t. t.now) texts.now) }
    ensures offers { IfOk result (λ r. AreOffers lines r.items) }
{
    match role {
        Role::Server => said_offers(lines, texts),
        _ => {
            if texts.is_empty() {
                Ok(ArrayVec::new())
            } else {
                Err(wrong_at(OptionName::Offer, 0, Expected::OtherRole))
            }
        }
    }
}

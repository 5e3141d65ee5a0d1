//! What a word of a line may be, and what it may begin with. A form says it in a short text: `#0-255` a number in decimal within
//! these bounds, `H2-64` an even number of hex digits, so many at least and so many at most, `A` the address of a station that
//! no end has, `N` a name, and `S` a name that isn't offered yet. Every other form is the word itself.

ghost use Rattle.std.specs.Prelude.{◌≡◌, ◌==◌, ◌≤◌, ◌<◌, ◌+◌, ◌-◌, ◌++◌, ◌∷◌, [], length, option_map, position, take, IfSome};
ghost use Rattle.std.specs.List.{list_all, list_any};
ghost use Rattle.lat_text.specs.Lines.{lines_of};
ghost use Rattle.lat_text.specs.NameText.{is_plain};
ghost use Rattle.lat_explain.specs.Forms as forms;
ghost use Rattle.lat_explain.specs.Forms.{
  bounds_of,
  bound,
  is_within,
  is_front,
  begins_within,
  begins_number,
  fits_number,
  is_hex,
  begins_hex,
  fits_hex,
  same_station,
  is_station_taken,
  begins_station,
  fits_station,
  is_escaped,
  behind_digits,
  behind_byte,
  begins_byte,
  begins_digits,
  begins_name,
  is_among,
  isnt_among,
  ends_so,
  may_end,
  may_be_another,
  begins_service,
  begins_word,
  kind_of,
  begins,
  fits,
  begun,
  taken_shown,
};

use lat_base::{Addr, Name};
use lat_text::{address_of, byte_of, first_line, name_of, number_within};

/// What a form asks for.
#[derive(Clone, Copy)]
pub enum Kind {
    /// Nothing: the line ends.
    End,
    /// A number within these bounds.
    Number(u64, u64),
    /// An even number of hex digits, so many at least and so many at most.
    Hex(u64, u64),
    /// The address of a station that no end has.
    Station,
    /// A name.
    Name,
    /// A name that isn't offered yet.
    Service,
    /// The word that the form is.
    Word,
}

/// What other lines said that a word may not repeat.
#[derive(Clone, Copy)]
pub struct Taken<'a> {
    /// The address of the server, as its line has it.
    pub server: &'a [u8],
    /// The services that are offered, each ended by a line feed.
    pub services: &'a [u8],
}

/// The address of everyone.
const EVERYONE: &str = "09002b00000f";

/// A name has so many bytes at most.
const NAME_BYTES: usize = 16;

/// A name is written in so many bytes at most.
const WRITTEN: usize = 48;

fn dash_in(text: &[u8]) -> Option<usize>
    ensures { result ≡ position (λ b. b == 45) text.now }
{
    text.iter().position(|byte| *byte == b'-')
}

// A number; 0 where the text is none.
pub(crate) fn bound(text: &[u8]) -> u64
    ensures { result ≡ bound text.now }
{
    number_within(0, u64::MAX, text).unwrap_or(0)
}

// The two numbers round a `-`.
fn bounds_of(text: &[u8]) -> (u64, u64)
    ensures { result ≡ bounds_of text.now }
{
    let Some(dash) = dash_in(text) else {
        return (0, 0);
    };
    let (least, _) = text.split_at(dash);
    let (_, most) = text.split_at(dash + 1);
    (bound(least), bound(most))
}

/// A number has so many digits at most.
const DIGITS: u32 = 20;

fn is_within(least: u64, most: u64, number: u64) -> bool
    ensures { result ≡ is_within least most number }
{
    least <= number && number <= most
}

// Whether a number within these bounds begins with this one.
#[tactic(auto, unfolding(crate::specs::Forms::is_front))]
fn is_front(bounds: (u64, u64), number: u64) -> bool
    ensures { result ≡ is_front 20 bounds.0 bounds.1 number }
{
    let (mut least, mut most) = bounds;
    for _ in 0..DIGITS {
        if is_within(least, most, number) {
            return true;
        }
        least /= 10;
        most /= 10;
    }
    false
}

// Behind a 0 stands no further digit.
fn begins_within(bounds: (u64, u64), number: Option<u64>) -> bool
    ensures { result ≡ begins_within bounds.0 bounds.1 number }
{
    match number {
        Some(0) => bounds.0 == 0,
        Some(number) => is_front(bounds, number),
        None => false,
    }
}

#[tactic(auto, unfolding(crate::specs::Forms::begins_number))]
fn begins_number(bounds: (u64, u64), word: &[u8]) -> bool
    ensures { result ≡ begins_number bounds word.now }
{
    word.is_empty() || begins_within(bounds, number_within(0, bounds.1, word))
}

#[tactic(auto, unfolding(crate::specs::Forms::fits_number))]
fn fits_number(bounds: (u64, u64), word: &[u8]) -> bool
    ensures { result ≡ fits_number bounds word.now }
{
    number_within(bounds.0, bounds.1, word).is_some()
}

fn is_hex(byte: u8) -> bool
    ensures { result ≡ is_hex byte }
{
    byte_of(byte, byte).is_some()
}

fn are_hex(word: &[u8]) -> bool
    ensures { result ≡ list_all is_hex word.now }
{
    word.iter().all(|byte| is_hex(*byte))
}

#[tactic(auto, unfolding(crate::specs::Forms::begins_hex))]
fn begins_hex(bounds: (u64, u64), word: &[u8]) -> bool
    ensures { result ≡ begins_hex bounds word.now }
{
    word.len() as u64 <= bounds.1 && are_hex(word)
}

#[tactic(auto, unfolding(crate::specs::Forms::fits_hex))]
fn fits_hex(bounds: (u64, u64), word: &[u8]) -> bool
    ensures { result ≡ fits_hex bounds word.now }
{
    bounds.0 <= word.len() as u64 && word.len() % 2 == 0 && begins_hex(bounds, word)
}

fn same_station(a: Option<Addr>, b: Option<Addr>) -> bool
    ensures { result ≡ same_station a b }
{
    match (a, b) {
        (Some(a), Some(b)) => a.0 == b.0,
        _ => false,
    }
}

fn is_station_taken(taken: Taken<'_>, word: &[u8]) -> bool
    ensures { result ≡ is_station_taken (taken_shown taken.entry) word.now }
{
    let station = address_of(word);
    same_station(station, address_of(EVERYONE.as_bytes()))
        || same_station(station, address_of(taken.server))
}

fn begins_station(taken: Taken<'_>, word: &[u8]) -> bool
    ensures { result ≡ begins_station (taken_shown taken.entry) word.now }
{
    begins_hex((12, 12), word) && !is_station_taken(taken, word)
}

fn fits_station(taken: Taken<'_>, word: &[u8]) -> bool
    ensures { result ≡ fits_station (taken_shown taken.entry) word.now }
{
    fits_hex((12, 12), word) && !is_station_taken(taken, word)
}

fn is_escaped(byte: Option<u8>) -> bool
    ensures { result ≡ is_escaped byte }
{
    match byte {
        Some(byte) => matches!(byte, b'%' | 0xa1..=0xfe),
        None => false,
    }
}

fn behind_digits(text: &[u8]) -> Option<&[u8]>
    ensures { option_map (λ r. r.now) result ≡ behind_digits text.now }
{
    match text {
        [high, low, behind @ ..] if is_escaped(byte_of(*high, *low)) => Some(behind),
        _ => None,
    }
}

fn is_plain(byte: u8) -> bool
    ensures { result ≡ is_plain byte }
{
    matches!(byte, 0x21..=0x7e) && byte != b'%'
}

// The text behind the first byte of a name.
fn behind_byte(text: &[u8]) -> Option<&[u8]>
    ensures { option_map (λ r. r.now) result ≡ behind_byte text.now }
{
    match text {
        [byte, behind @ ..] if is_plain(*byte) => Some(behind),
        [b'%', behind @ ..] => behind_digits(behind),
        _ => None,
    }
}

fn begins_byte(digit: u8) -> bool
    ensures { result ≡ begins_byte digit }
{
    matches!(digit, b'2' | b'a'..=b'f' | b'A'..=b'F')
}

// Less than a byte of a name, with which one may begin.
fn begins_digits(text: &[u8]) -> bool
    ensures { result ≡ begins_digits text.now }
{
    match text {
        [] => true,
        [byte] => *byte == b'%',
        [byte, digit] => *byte == b'%' && begins_byte(*digit),
        _ => false,
    }
}

#[tactic(auto, unfolding(crate::specs::Forms::begins_name))]
fn begins_name(most: usize, word: &[u8]) -> bool
    ensures { result ≡ begins_name most word.now }
{
    let mut rest = word;
    for _ in 0..most {
        let Some(behind) = behind_byte(rest) else {
            return begins_digits(rest);
        };
        rest = behind;
    }
    rest.is_empty()
}

// Whether two names are the same, in whatever case.
fn same_name(name: &Name, other: Option<Name>) -> bool
    ensures { result ≡ forms.same_name name.now other }
{
    match other {
        Some(other) => other.folded().bytes() == name.folded().bytes(),
        None => false,
    }
}

#[tactic(auto, unfolding(crate::specs::Forms::is_among))]
fn is_among(name: &Name, services: &[u8]) -> bool
    ensures { result ≡ is_among name.now (lines_of services.now) }
{
    let mut rest = services;
    while let Some((line, behind)) = first_line(rest) {
        if same_name(name, name_of(line)) {
            return true;
        }
        rest = behind;
    }
    false
}

fn isnt_among(services: &[u8], name: Option<Name>) -> bool
    ensures { result ≡ isnt_among services.now name }
{
    match name {
        Some(name) => !is_among(&name, services),
        None => false,
    }
}

// A word with one digit more, and what is left of its place.
fn with_digit(word: &[u8], digit: u8) -> [u8; WRITTEN]
    requires { length word.now < 48 }
    ensures more { take (length word.now + 1) result ≡ word.now ++ digit ∷ [] }
    ensures full { length result ≡ 48 }
{
    let mut text = [0; WRITTEN];
    text[..word.len()].copy_from_slice(word);
    text[word.len()] = digit;
    text
}

// Whether this digit makes a word another name than these.
#[tactic(auto, unfolding(crate::specs::Forms::ends_so))]
fn ends_so(services: &[u8], word: &[u8], digit: u8) -> bool
    requires { length word.now < 48 }
    ensures { result ≡ ends_so services.now word.now digit }
{
    let text = with_digit(word, digit);
    let (more, _) = text.split_at(word.len() + 1);
    isnt_among(services, name_of(more))
}

// Whether some of these digits makes a word another name than these.
fn some_ends(services: &[u8], word: &[u8], digits: &[u8]) -> bool
    requires { length word.now < 48 }
    ensures { result ≡ list_any (ends_so services.now word.now) digits.now }
{
    for digit in digits {
        if ends_so(services, word, *digit) {
            return true;
        }
    }
    false
}

// Whether some digit makes a word another name than these.
#[tactic(auto, unfolding(crate::specs::Forms::may_end))]
fn may_end(services: &[u8], word: &[u8]) -> bool
    ensures { result ≡ may_end services.now word.now }
{
    word.len() < WRITTEN && some_ends(services, word, "0123456789abcdef".as_bytes())
}

// A word without its last byte.
fn shortened(word: &[u8]) -> &[u8]
    ensures { result.now ≡ take (length word.now - 1) word.now }
{
    let (front, _) = word.split_at(word.len().saturating_sub(1));
    front
}

// Whether a name may become another than these with further bytes, or is one.
fn may_be_another(services: &[u8], word: &[u8], name: Option<Name>) -> bool
    ensures { result ≡ may_be_another services.now word.now name }
{
    match name {
        Some(name) => name.bytes().len() < NAME_BYTES || !is_among(&name, services),
        None => begins_name(NAME_BYTES - 1, shortened(word)) || may_end(services, word),
    }
}

fn begins_service(taken: Taken<'_>, word: &[u8]) -> bool
    ensures { result ≡ begins_service (taken_shown taken.entry) word.now }
{
    begins_name(NAME_BYTES, word) && may_be_another(taken.services, word, name_of(word))
}

fn begins_word(form: &[u8], word: &[u8]) -> bool
    ensures { result ≡ begins_word form.now word.now }
{
    if form.len() < word.len() {
        return false;
    }
    let (front, _) = form.split_at(word.len());
    front == word
}

// What a form asks for, by its first byte.
#[tactic(auto, unfolding(crate::specs::Forms::kind_of))]
pub(crate) fn kind_of(form: &[u8]) -> Kind
    ensures { result ≡ kind_of form.now }
{
    match form {
        [] => Kind::End,
        [b'#', bounds @ ..] => {
            let (least, most) = bounds_of(bounds);
            Kind::Number(least, most)
        }
        [b'H', bounds @ ..] => {
            let (least, most) = bounds_of(bounds);
            Kind::Hex(least, most)
        }
        [b'A', ..] => Kind::Station,
        [b'N', ..] => Kind::Name,
        [b'S', ..] => Kind::Service,
        _ => Kind::Word,
    }
}

// Whether a word of this form may begin with this.
#[tactic(auto, unfolding(crate::specs::Forms::begins))]
fn begins(taken: Taken<'_>, form: &[u8], word: &[u8]) -> bool
    ensures { result ≡ begins (taken_shown taken.entry) form.now word.now }
{
    match kind_of(form) {
        Kind::End => false,
        Kind::Number(least, most) => begins_number((least, most), word),
        Kind::Hex(least, most) => begins_hex((least, most), word),
        Kind::Station => begins_station(taken, word),
        Kind::Name => begins_name(NAME_BYTES, word),
        Kind::Service => begins_service(taken, word),
        Kind::Word => begins_word(form, word),
    }
}

/// Whether this is a word of this form.
#[tactic(auto, unfolding(crate::specs::Forms::fits))]
pub fn fits(taken: Taken<'_>, form: &[u8], word: &[u8]) -> bool
    ensures { result ≡ fits (taken_shown taken.entry) form.now word.now }
{
    match kind_of(form) {
        Kind::End => false,
        Kind::Number(least, most) => fits_number((least, most), word),
        Kind::Hex(least, most) => fits_hex((least, most), word),
        Kind::Station => fits_station(taken, word),
        Kind::Name => name_of(word).is_some(),
        Kind::Service => isnt_among(taken.services, name_of(word)),
        Kind::Word => word == form,
    }
}

/// How many bytes of a word a word of this form may begin with.
#[tactic(auto, unfolding(crate::specs::Forms::begun_from))]
pub fn begun(taken: Taken<'_>, form: &[u8], word: &[u8]) -> usize
    ensures value { result ≡ begun (taken_shown taken.entry) form.now word.now }
    ensures most { result ≤ length word.now }
{
    for count in 0..word.len() {
        let (front, _) = word.split_at(count + 1);
        if !begins(taken, form, front) {
            return count;
        }
    }
    word.len()
}

//! What is kept of one end, and the tests of a RUN that look at no session.

ghost use Rattle.std.specs.Prelude.{◌≡◌, ◌+◌, ◌^◌, ◌<◌, ◌&&◌, nat_le, cond, take, drop};
ghost use Rattle.lat_captures.specs.Audit.{find_from};
ghost use Rattle.lat_captures.specs.Tests.{bears, number_near, ack_near, repeats, tests_hold};

use crate::head::{RunHead, Title};
use crate::recent::{Recent, SentMessage};
use crate::rule::Rule;
use lat_base::Memory;

/// What is kept of one end.
pub struct Side {
    /// How many messages it has sent.
    pub count: u64,
    /// The greatest acknowledgement that it has sent.
    pub acknowledged: u64,
    pub recent: Recent,
}

impl Drop for Side {
    fn drop(self) {
        let Self {
            count,
            acknowledged,
            recent,
        } = self;
    }
}

/// Of what is kept of both ends, that of the one, or of the other.
pub fn side_of<'a>(by_master: bool, master: &'a Side, slave: &'a Side) -> &'a Side
    ensures { result.now ≡ cond by_master master.now slave.now }
{
    if by_master { master } else { slave }
}

/// The number and the acknowledgement of a RUN, those that their fields mean.
#[derive(Clone, Copy)]
pub struct Near {
    pub number: u64,
    pub ack: u64,
}

// The first so many messages.
fn first(messages: &[SentMessage], count: u64) -> &[SentMessage]
    ensures { result.now ≡ take count messages.now }
{
    if count < messages.len() as u64 {
        &messages[..count as usize]
    } else {
        messages
    }
}

// The messages behind so many.
fn behind(messages: &[SentMessage], count: u64) -> &[SentMessage]
    ensures { result.now ≡ drop count messages.now }
{
    if count < messages.len() as u64 {
        &messages[count as usize..]
    } else {
        &[]
    }
}

// Whether the field bears the number.
fn bears(wide: bool, field: u16, number: u64) -> bool
    ensures { result ≡ bears wide field number }
{
    if wide {
        number % 65_536 == u64::from(field)
    } else {
        number % 256 == u64::from(field)
    }
}

// The first of so many numbers, from the least on, that the field bears and that isn't below the floor.
fn first_near(wide: bool, field: u16, floor: u64, least: u64, count: u64) -> Option<u64>
    requires { least + count < 2 ^ 64 }
    ensures { result ≡ find_from (λ n. bears wide field n && nat_le floor n) least count }
{
    for number in least..least + count {
        if bears(wide, field, number) && floor <= number {
            return Some(number);
        }
    }
    None
}

impl Side {
    ghost use Rattle.std.specs.Prelude.{OnOk, OnErr};
    ghost use Rattle.lat_captures.specs.Steps.{messages_between, sending};

    /// The messages that are kept, from one number on up to another.
    pub fn between(&self, from: u64, to: u64) -> &[SentMessage]
        ensures { result.now ≡ messages_between self.now from to }
    {
        let gone = self.count.saturating_sub(8);
        let front = first(self.recent.as_slice(), to.saturating_sub(gone));
        behind(front, from.saturating_sub(gone))
    }

    /// Sends its next message. Takes memory for it.
    pub fn send(&mut self, message: SentMessage) -> Result<(), Memory>
        requires { self.old.count + 1 < 2 ^ 64 }
        ensures sent { OnOk result (self.new ≡ sending self.old message.text message.slots) }
        ensures kept { OnErr result (self.new.count ≡ self.old.count) }
    {
        self.recent.push(message)?;
        self.count += 1;
        Ok(())
    }

    // The number of a RUN of this end, with slots or without.
    fn number_near(&self, wide: bool, seq: u16, bare: bool) -> Option<u64>
        requires { self.now.count + 2 < 2 ^ 64 }
        ensures { result ≡ number_near wide self.now.count seq bare }
    {
        if bare {
            return if bears(wide, seq, self.count) {
                Some(self.count)
            } else {
                None
            };
        }
        let least = self.count.saturating_sub(8) + 1;
        first_near(wide, seq, 0, least, (self.count + 1).min(9))
    }

    // The acknowledgement of a RUN of this end.
    fn ack_near(&self, other: &Side, wide: bool, ack: u16) -> Option<u64>
        requires { other.now.count + 2 < 2 ^ 64 }
        ensures { result ≡ ack_near wide self.now.acknowledged other.now.count ack }
    {
        let least = other.count.saturating_sub(8);
        first_near(
            wide,
            ack,
            self.acknowledged,
            least,
            (other.count + 1).min(9),
        )
    }

    // Whether a message of this number, if it was sent before, has this text.
    fn repeats(&self, number: u64, text: &[u8]) -> bool
        ensures { result ≡ repeats self.now number text.now }
    {
        number > self.count || self.recent.has_back(self.count - number, text)
    }
}

/// Tests a RUN in the order of the rules, up to that on the window, and tells its numbers.
pub fn tests(
    title: &Title,
    own: &Side,
    other: &Side,
    by_master: bool,
    head: &RunHead,
    bare: bool,
    text: &[u8],
) -> Result<Near, Rule>
    requires { (own.now.count + 2 < 2 ^ 64) × (other.now.count + 2 < 2 ^ 64) }
    ensures { result ≡ tests_hold title.now own.now other.now by_master head.now bare text.now }
{
    if !title.has(by_master, head) {
        return Err(Rule::Ids);
    }
    let number = own
        .number_near(title.wide, head.seq, bare)
        .ok_or(Rule::Number)?;
    if !bare && !own.repeats(number, text) {
        return Err(Rule::Slots);
    }
    let ack = own
        .ack_near(other, title.wide, head.ack)
        .ok_or(Rule::Acknowledgement)?;
    if number > own.count && number > other.acknowledged.saturating_add(8) {
        return Err(Rule::Window);
    }
    Ok(Near { number, ack })
}

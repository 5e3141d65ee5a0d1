//! The last messages of one end.

ghost use Rattle.std.specs.Prelude.{◌≡◌, [], OnOk, IfOk};
ghost use Rattle.lat_captures.specs.Recent.{pushed, has_text, has_back};

use crate::slot::OwnedSlot;
use lat_base::Memory;
use std::alloc::Global;
use std::marker::Model;

/// How many messages of an end may come again.
const MESSAGES: usize = 8;

/// A message: the text of its slots, and its slots with their sessions. Contracts see both.
pub struct SentMessage {
    text: Vec<u8>,
    slots: Vec<OwnedSlot>,
}

impl Drop for SentMessage {
    fn drop(self) {
        let Self { text, slots } = self;
    }
}

impl Model for SentMessage {
    ghost use Rattle.lat_captures.specs.Recent.{Message};

    ghost Value = { Message };

    ghost view = { λ a. record { text = a.text.items; slots = a.slots.items } };
}

impl SentMessage {
    /// A message with this text and these slots. Takes memory for its text.
    pub fn make(alloc: Global, text: &[u8], slots: Vec<OwnedSlot>) -> Result<SentMessage, Memory>
        ensures { IfOk result (λ message.
            message ≡ record { text = text.now; slots = slots.items }) }
    {
        let text = Vec::from_slice(alloc, text)?;
        Ok(SentMessage { text, slots })
    }

    /// Its slots, in order.
    pub fn slots(&self) -> &[OwnedSlot]
        ensures { result.now ≡ self.now.slots }
    {
        self.slots.as_slice()
    }

    fn has_text(&self, text: &[u8]) -> bool
        ensures { result ≡ has_text text.now self.now }
    {
        self.text.as_slice() == text
    }
}

/// The last messages of an end, eight at most, in order. Contracts see the list.
pub struct Recent {
    messages: Vec<SentMessage>,
}

impl Drop for Recent {
    fn drop(self) {
        let Self { messages } = self;
    }
}

impl Model for Recent {
    ghost use Rattle.std.specs.Prelude.{List};
    ghost use Rattle.lat_captures.specs.Recent.{Message};

    ghost Value = { List Message };

    ghost view = { λ a. a.messages.items };
}

impl Recent {
    /// No message.
    pub fn new(alloc: Global) -> Recent
        ensures { result ≡ [] }
    {
        Recent {
            messages: Vec::new(alloc),
        }
    }

    /// Adds a message behind the others, the first of which goes where there are eight. Takes memory for it.
    pub fn push(&mut self, message: SentMessage) -> Result<(), Memory>
        ensures { OnOk result (self.new ≡ pushed self.old message) }
    {
        if self.messages.len() >= MESSAGES {
            self.messages.remove(0);
        }
        self.messages.push(message)?;
        Ok(())
    }

    /// Whether the message that stands so far before the last one has this text.
    pub fn has_back(&self, back: u64, text: &[u8]) -> bool
        ensures { result ≡ has_back self.now back text.now }
    {
        let count = self.messages.len();
        if back >= count as u64 {
            return false;
        }
        self.messages[count - 1 - back as usize].has_text(text)
    }

    /// The messages, first to last.
    pub fn as_slice(&self) -> &[SentMessage]
        ensures { result.now ≡ self.now }
    {
        self.messages.as_slice()
    }
}

//! The numbers of the messages that an end forms.

ghost use Rattle.std.specs.Prelude.{◌≡◌, ℕ, suc, ◌+◌, ◌*◌, ◌<◌, ◌≤◌, nat_lt};
ghost use Rattle.lat_model.specs.numbers.Near.{near, ahead};
ghost use Rattle.lat_seq.specs.Spans.{half, field};
ghost use Rattle.lat_seq.specs.Sides.{Sends, after_ack};
ghost use Rattle.lat_seq.specs.Acks.{by_numbers, by_distance, known_after};

use crate::span::Span;
use std::marker::Model;

/// What an acknowledgement says.
#[derive(Clone, Copy)]
pub enum AckFact {
    /// So many more messages are taken, at least one.
    New(u8),
    /// Nothing new.
    Old,
    /// It is of a message that was never sent, which breaks the circuit.
    Unsent,
}

/// The side that forms messages: the field of the last one known to be taken, and how many came behind it. It stands for two
/// numbers, of the messages formed and of those known to be taken, by the relation `Sends`. The window is kept for life: an
/// end that agrees on another one makes a new side. See "Messages and numbers" in docs/PROTOCOL.md.
#[derive(Clone, Copy)]
pub struct SendSide {
    span: Span,
    window: u8,
    known: u16,
    unacknowledged: u8,
}

impl Model for SendSide {
    ghost use Rattle.lat_seq.specs.Sides.{Sending, Holds};

    ghost Value = { Sending };

    ghost view = { λ a. record {
      span = a.span;
      window = a.window;
      known = a.known;
      unacknowledged = a.unacknowledged;
    } };

    ghost invariant = { λ a. Holds a.span a.window a.known a.unacknowledged };

    ghost inverse = { λ v. record { span = v.span; window = v.window; known = v.known; unacknowledged = v.unacknowledged } };
}

impl SendSide {
    /// A side that has formed nothing, with a window of 1 to 8 messages.
    pub fn make(window: u8, span: Span) -> SendSide
        requires { (1 ≤ window) × (window ≤ 8) }
        ensures value { result ≡ record {
          span = span;
          window = window;
          known = 0;
          unacknowledged = 0;
        } }
        ensures state { Sends result 0 0 }
    {
        SendSide {
            span,
            window,
            known: 0,
            unacknowledged: 0,
        }
    }

    /// Whether fewer messages than the window are unacknowledged, so that one more may be formed.
    pub fn room(&self) -> bool
        ensures value { result ≡ nat_lt self.now.unacknowledged self.now.window }
        ensures state { (sent known : ℕ) → Sends self.now sent known →
            result ≡ nat_lt sent (known + self.now.window) }
    {
        self.unacknowledged < self.window
    }

    /// Forms one more message, and gives the field of its number.
    pub fn push(&mut self) -> u16
        requires { self.old.unacknowledged < self.old.window }
        ensures value { self.new ≡ record self.old { unacknowledged = suc self.old.unacknowledged } }
        ensures field { result ≡ field self.new.span (self.new.known + self.new.unacknowledged) }
        ensures number { (sent known : ℕ) → Sends self.old sent known →
            result ≡ field self.old.span (suc sent) }
        ensures after { (sent known : ℕ) → Sends self.old sent known →
            Sends self.new (suc sent) known }
    {
        self.unacknowledged += 1;
        self.newest()
    }

    /// The field of the newest message, 0 before the first.
    pub fn newest(&self) -> u16
        ensures field { result ≡ field self.now.span (self.now.known + self.now.unacknowledged) }
        ensures state { (sent known : ℕ) → Sends self.now sent known →
            result ≡ field self.now.span sent }
    {
        self.span.step(self.known, self.unacknowledged)
    }

    /// How many messages are unacknowledged: those that are sent again.
    pub fn again(&self) -> u8
        ensures value { result ≡ self.now.unacknowledged }
        ensures state { (sent known : ℕ) → Sends self.now sent known → known + result ≡ sent }
    {
        self.unacknowledged
    }

    /// Hears an acknowledgement, a field of a frame below twice the half range. What is new is no longer unacknowledged;
    /// after `Old` and `Unsent` nothing has changed.
    pub fn acked(&mut self, ack: u16) -> AckFact
        requires { ack < 2 * half self.old.span }
        ensures distance { result ≡ by_distance (half self.old.span) self.old.unacknowledged (ahead ack self.old.known (half self.old.span)) }
        ensures value { self.new ≡ after_ack self.old ack result }
        ensures answer { (sent known : ℕ) → Sends self.old sent known →
            result ≡ by_numbers sent known (near ack known (half self.old.span)) }
        ensures after { (sent known : ℕ) → Sends self.old sent known →
            Sends self.new sent (known_after known result) }
    {
        let ahead = self.span.distance(self.known, ack);
        if ahead >= self.span.half() || ahead == 0 {
            return AckFact::Old;
        }
        if ahead > u16::from(self.unacknowledged) {
            return AckFact::Unsent;
        }
        let taken = ahead as u8;
        self.known = ack;
        self.unacknowledged -= taken;
        AckFact::New(taken)
    }
}

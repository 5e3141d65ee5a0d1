//! The numbers of the messages that an end takes.

ghost use Rattle.std.specs.Prelude.{◌≡◌, ℕ, suc, ◌*◌, ◌<◌, cond, nat_eq};
ghost use Rattle.lat_model.specs.numbers.Near.{near};
ghost use Rattle.lat_seq.specs.Spans.{half, field};
ghost use Rattle.lat_seq.specs.Sides.{Takes};

use crate::span::Span;
use std::marker::Model;

/// The side that takes messages: the field of the last one taken. It stands for a number of messages taken, by the relation
/// `Takes`. See "Messages and numbers" in docs/PROTOCOL.md.
#[derive(Clone, Copy)]
pub struct RecvSide {
    span: Span,
    last: u16,
}

impl Model for RecvSide {
    ghost use Rattle.std.specs.Prelude.{◌*◌, ◌<◌};
    ghost use Rattle.lat_seq.specs.Spans.{half};
    ghost use Rattle.lat_seq.specs.Sides.{Receiving};

    ghost Value = { Receiving };

    ghost view = { λ a. record { span = a.span; last = a.last } };

    ghost invariant = { λ a. a.last < 2 * half a.span };

    ghost inverse = { λ v. record { span = v.span; last = v.last } };
}

impl RecvSide {
    /// A side that has taken nothing.
    pub fn make(span: Span) -> RecvSide
        ensures value { result ≡ record { span = span; last = 0 } }
        ensures state { Takes result 0 }
    {
        RecvSide { span, last: 0 }
    }

    /// Whether the number heard is the next one. The number is a field of a frame, below twice the half range.
    pub fn expects(&self, number: u16) -> bool
        requires { number < 2 * half self.now.span }
        ensures field { result ≡ nat_eq number (field self.now.span (suc self.now.last)) }
        ensures answer { (taken : ℕ) → Takes self.now taken →
            result ≡ nat_eq (near number taken (half self.now.span)) (suc taken) }
    {
        number == self.span.step(self.last, 1)
    }

    /// True, and takes the message, exactly where the number heard is the next one. The number is a field of a frame, below
    /// twice the half range.
    pub fn offer(&mut self, number: u16) -> bool
        requires { number < 2 * half self.old.span }
        ensures field { result ≡ nat_eq number (field self.old.span (suc self.old.last)) }
        ensures answer { (taken : ℕ) → Takes self.old taken →
            result ≡ nat_eq (near number taken (half self.old.span)) (suc taken) }
        ensures after { (taken : ℕ) → Takes self.old taken →
            Takes self.new (cond result (suc taken) taken) }
        ensures span { self.new.span ≡ self.old.span }
    {
        let next = self.expects(number);
        if next {
            self.last = number;
        }
        next
    }

    /// The field of the last message taken, 0 before the first: what each frame of this end acknowledges.
    pub fn ack(&self) -> u16
        ensures value { result ≡ self.now.last }
        ensures state { (taken : ℕ) → Takes self.now taken → result ≡ field self.now.span taken }
    {
        self.last
    }
}

//! The numbered messages of one end of a circuit.

ghost use Rattle.std.specs.Prelude.{◌≡◌, ◌≤◌, List, length, drop, nat_lt, IfOk, false};
ghost use Rattle.lat_seq.specs.declared.span.Span.TheVariants as spans;
ghost use Rattle.lat_model.specs.numbers.Link as model;
ghost use Rattle.lat_model.specs.sessions.Slots.{Slot};
ghost use Rattle.lat_circuit.specs.Links.{Stands, fresh_kept};

use crate::ids::Ids;
use circular_buffer::HeapCircularBuffer;
use lat_base::{Memory, Payload};
use lat_seq::{RecvSide, SendSide, Span};
use std::alloc::Global;
use std::marker::Model;

// The greatest window: so many messages may be unacknowledged.
const MOST_MESSAGES: usize = 8;

/// The numbered messages of one end of a circuit. It stands for those of the model, which forget nothing: contracts say for
/// every `l` that it stands for (`Stands`) what it is afterwards. Of the messages it keeps those that the peer isn't known to
/// have taken, as their payloads, which are written once. Only `make` takes memory. See "Messages and numbers" in
/// docs/PROTOCOL.md.
pub struct Link {
    ids: Ids,
    window: u8,
    span: Span,
    pub(crate) sending: SendSide,
    pub(crate) receiving: RecvSide,
    pub(crate) texts: HeapCircularBuffer<Payload>,
}

impl Drop for Link {
    fn drop(self) {
        let Self {
            ids,
            window,
            span,
            sending,
            receiving,
            texts,
        } = self;
    }
}

impl Model for Link {
    ghost use Rattle.std.specs.Prelude.{◌≡◌};
    ghost use Rattle.lat_circuit.specs.Links.{Kept, Holds};

    ghost Value = { Kept };

    ghost view = { λ a. record {
      ids = a.ids;
      sending = a.sending;
      receiving = a.receiving;
      texts = a.texts.items;
    } };

    ghost invariant = { λ a.
        Holds a.window a.span (record {
          ids = a.ids;
          sending = a.sending;
          receiving = a.receiving;
          texts = a.texts.items;
        })
        × (a.texts.capacity ≡ 8) };
}

impl Link {
    /// A link on which nothing was formed or taken, with no ids, a window of 1 and numbers of one byte. It takes the memory of
    /// eight payloads; `Memory` where none is found.
    pub fn make(alloc: Global) -> Result<Link, Memory>
        ensures value { IfOk result (λ k.
            k ≡ fresh_kept (record { master = false; to = 0; from = 0 }) 1 spans.Byte) }
        ensures state { IfOk result (λ k. Stands k model.fresh) }
    {
        Ok(Link {
            ids: Ids {
                master: false,
                to: 0,
                from: 0,
            },
            window: 1,
            span: Span::Byte,
            sending: SendSide::make(1, Span::Byte),
            receiving: RecvSide::make(Span::Byte),
            texts: HeapCircularBuffer::with_capacity(alloc, MOST_MESSAGES)?,
        })
    }

    /// Begins anew with these ids, a window of 1 to 8 messages and numbers of this span: nothing was formed or taken.
    pub fn start(&mut self, ids: Ids, window: u8, span: Span)
        requires { (1 ≤ window) × (window ≤ 8) }
        ensures value { self.new ≡ fresh_kept ids window span }
        ensures state { Stands self.new model.fresh }
    {
        self.ids = ids;
        self.window = window;
        self.span = span;
        self.sending = SendSide::make(window, span);
        self.receiving = RecvSide::make(span);
        self.texts.clear();
    }

    /// The ids of the circuit.
    pub fn ids(&self) -> Ids
        ensures { result ≡ self.now.ids }
    {
        self.ids
    }

    /// How far the numbers count.
    pub fn span(&self) -> Span
        ensures { result ≡ self.now.sending.span }
    {
        self.span
    }

    /// How many messages may be unacknowledged, 1 to 8.
    pub fn window(&self) -> u8
        ensures value { result ≡ self.now.sending.window }
        ensures bounds { (1 ≤ result) × (result ≤ 8) }
    {
        self.window
    }

    /// Whether fewer messages than the window are unacknowledged, so that one more may be formed.
    pub fn is_open(&self) -> bool
        ensures value { result ≡ nat_lt self.now.sending.unacknowledged self.now.sending.window }
        ensures state { (l : model.Link (List Slot)) → Stands self.now l →
            result ≡ model.window_open self.now.sending.window l }
    {
        self.sending.room()
    }

    /// How many messages are unacknowledged.
    pub fn unacknowledged(&self) -> u8
        ensures value { result ≡ self.now.sending.unacknowledged }
        ensures state { (l : model.Link (List Slot)) → Stands self.now l →
            result ≡ length (drop l.known l.sent) }
        ensures most { result ≤ 8 }
    {
        self.sending.again()
    }
}

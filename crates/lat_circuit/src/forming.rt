//! The frames that a link makes: a new message, a RUN without slots, and the messages that go out again.

ghost use Rattle.std.specs.Prelude.{◌≡◌, ◌<◌, ◌≤◌, List, [], length, false, map, slice_get, Some};
ghost use Rattle.lat_model.specs.numbers.Link as model;
ghost use Rattle.lat_model.specs.sessions.Slots.{Slot};
ghost use Rattle.lat_circuit.specs.Links.{Stands, IsMessage, frame_payload, next_head, unformed_payload};
ghost use Rattle.lat_circuit.specs.Payloads.{head_size};

use crate::head::{behind, write_head};
use crate::link::Link;
use crate::patch::{set_acknowledgement, set_slots};
use lat_base::Payload;
use lat_fields::write_padding;

impl Link {
    /// Writes the head of the next message into an empty payload, as one of no slots. The slots follow it, and then `form`.
    #[tactic(auto, using(crate::proofs::Numbers::field_small, crate::proofs::Numbers::field_next))]
    pub fn begin(&self, payload: &mut Payload)
        requires { payload.old ≡ [] }
        ensures text { (l : model.Link (List Slot)) (m : List Slot) →
            Stands self.now l →
            payload.new ≡ next_head self.now l m }
        ensures size { length payload.new ≡ head_size self.now.sending.span }
    {
        let span = self.span();
        let number = behind(span, self.sending.newest());
        write_head(
            self.ids(),
            span,
            false,
            number,
            self.receiving.ack(),
            payload,
        );
    }

    /// Forms the message that stands in the payload behind the head of `begin`, with so many slots: writes their number and
    /// zeros up to 46 bytes, and keeps a copy. Fewer messages than the window must be unacknowledged.
    pub fn form(&mut self, payload: &mut Payload, slots: u8)
        requires open { self.old.sending.unacknowledged < self.old.sending.window }
        requires head { head_size self.old.sending.span ≤ length payload.old }
        ensures text { (l : model.Link (List Slot)) (m : List Slot) →
            Stands self.old l →
            payload.old ≡ unformed_payload self.old l m →
            length m ≡ slots →
            payload.new ≡ frame_payload self.old false (model.formed_frame l m) }
        ensures state { (l : model.Link (List Slot)) (m : List Slot) →
            Stands self.old l →
            IsMessage self.old.sending.span m →
            payload.old ≡ unformed_payload self.old l m →
            length m ≡ slots →
            Stands self.new (model.form_message l m) }
        ensures same { (self.new.ids ≡ self.old.ids)
            × (self.new.sending.span ≡ self.old.sending.span)
            × (self.new.sending.window ≡ self.old.sending.window)
            × (self.new.receiving ≡ self.old.receiving) }
    {
        set_slots(payload, slots);
        write_padding(payload);
        self.sending.push();
        self.texts.push_back(payload.copy());
    }

    /// Writes a RUN without slots into an empty payload. It takes no number. Its bit 0 is `ask`.
    #[tactic(auto, using(crate::proofs::Numbers::field_small))]
    pub fn bare(&self, ask: bool, payload: &mut Payload)
        requires { payload.old ≡ [] }
        ensures { (l : model.Link (List Slot)) →
            Stands self.now l →
            payload.new ≡ frame_payload self.now ask (model.bare_frame l) }
    {
        let number = self.sending.newest();
        write_head(
            self.ids(),
            self.span(),
            ask,
            number,
            self.receiving.ack(),
            payload,
        );
        write_padding(payload);
    }

    /// Writes an unacknowledged message again into an empty payload: the one at this place, counted from 0, oldest first. It is
    /// as it was, with the acknowledgement of now.
    pub fn repeat(&self, place: usize, payload: &mut Payload)
        requires place { place < self.now.sending.unacknowledged }
        requires empty { payload.old ≡ [] }
        ensures { (l : model.Link (List Slot)) →
            Stands self.now l →
            slice_get (map (frame_payload self.now false) (model.again_frames l)) place
            ≡ Some payload.new }
    {
        let Some(text) = self.texts.get(place) else {
            unreachable!()
        };
        payload.append(text.bytes());
        set_acknowledgement(payload, self.span(), self.receiving.ack());
    }
}

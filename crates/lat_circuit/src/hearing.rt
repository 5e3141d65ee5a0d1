//! What a link hears: acknowledgements, and the messages of the peer.

ghost use Rattle.std.specs.Prelude.{◌≡◌, ◌*◌, ◌<◌, List, length, false};
ghost use Rattle.lat_model.specs.numbers.Link as model;
ghost use Rattle.lat_model.specs.numbers.Near.{near};
ghost use Rattle.lat_model.specs.sessions.Slots.{Slot};
ghost use Rattle.lat_seq.specs.declared.sending.AckFact.TheVariants.{Unsent};
ghost use Rattle.lat_seq.specs.Spans.{half};
ghost use Rattle.lat_seq.specs.Acks.{by_numbers};
ghost use Rattle.lat_circuit.specs.Links.{Stands, acknowledged_by};

use crate::head::behind;
use crate::link::Link;
use lat_seq::AckFact;

impl Link {
    /// Hears an acknowledgement, a field of a frame below twice the half range. The messages that it is the first to
    /// acknowledge are no longer kept; after `Old` and `Unsent` nothing has changed.
    pub fn acked(&mut self, ack: u16) -> AckFact
        requires { ack < 2 * half self.old.sending.span }
        ensures answer { (l : model.Link (List Slot)) →
            Stands self.old l →
            result ≡ by_numbers (length l.sent) l.known (acknowledged_by self.old l ack) }
        ensures state { (l : model.Link (List Slot)) →
            Stands self.old l →
            model.is_unsent l (acknowledged_by self.old l ack) ≡ false →
            Stands self.new (model.ack_in l (acknowledged_by self.old l ack)) }
        ensures unsent { result ≡ Unsent → self.new ≡ self.old }
        ensures same { (self.new.ids ≡ self.old.ids)
            × (self.new.sending.span ≡ self.old.sending.span)
            × (self.new.sending.window ≡ self.old.sending.window)
            × (self.new.receiving ≡ self.old.receiving) }
    {
        let fact = self.sending.acked(ack);
        if let AckFact::New(_) = fact {
            self.texts.truncate_front(self.sending.again() as usize);
        }
        fact
    }

    /// Whether the number heard, a field of a frame below twice the half range, is that of the peer's next message.
    pub fn expects(&self, number: u16) -> bool
        requires { number < 2 * half self.now.sending.span }
        ensures { (l : model.Link (List Slot)) →
            Stands self.now l →
            result ≡ model.is_next l (near number (length l.came) (half self.now.sending.span)) }
    {
        self.receiving.expects(number)
    }

    /// Takes the peer's next message.
    #[tactic(auto, using(crate::proofs::Numbers::field_small, crate::proofs::Numbers::field_next))]
    pub fn take(&mut self)
        ensures state { (l : model.Link (List Slot)) (m : List Slot) →
            Stands self.old l →
            Stands self.new (model.take_message l m) }
        ensures same { (self.new.ids ≡ self.old.ids) × (self.new.sending ≡ self.old.sending)
            × (self.new.texts ≡ self.old.texts) }
    {
        let number = behind(self.span(), self.receiving.ack());
        if !self.receiving.offer(number) {
            unreachable!()
        }
    }
}

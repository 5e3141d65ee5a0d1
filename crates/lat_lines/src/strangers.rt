//! What lines tell stations whose RUNs name no living circuit.

ghost use Rattle.std.specs.Prelude.{◌≡◌, List, ◌++◌};
ghost use Rattle.lat_base.specs.declared.outbox.OutFrame.{OutFrame};
ghost use Rattle.lat_machines.specs.values.Addresses.{address};
ghost use Rattle.lat_machines.specs.cores.Cores.{Core, is_stranger, told_stranger};
ghost use Rattle.lat_payload.specs.Frames.{Emits};
ghost use Rattle.lat_circuit.specs.Messages.{message_shown};
ghost use Rattle.lat_lines.specs.Kept.{side_of};
ghost use Rattle.lat_lines.specs.Stands.{Stands};
ghost use Rattle.lat_lines.specs.Strangers.{head_with, strangers_stop, frame_in};

use crate::lines::Lines;
use lat_base::{Addr, OutFrame};
use lat_circuit::stray_stop;
use lat_frames::{CircuitEnd, Message};

impl Lines {
    /// Whether a RUN from a station with these ids names no living circuit, though neither id is 0.
    pub fn is_stranger(&self, from: Addr, to: u16, source: u16) -> bool
        ensures { (c : Core) → Stands self.now c →
            result ≡ is_stranger c.circuits (address from.0) (head_with to source) }
    {
        self.circuits.is_stranger(from, to, source)
    }

    /// The STOP with which a prompt core answers a message from a station, before it has heard it: where it is a RUN that names
    /// no living circuit, though it states both ids. It goes out behind all other frames. See "How a circuit ends" in
    /// docs/PROTOCOL.md.
    pub fn stranger_stop(&self, prompt: bool, from: Addr, m: &Message) -> Option<OutFrame>
        ensures { (c : Core) (before : List OutFrame) →
            Stands self.now c →
            Emits (strangers_stop (side_of self.now) prompt c (address from.0)
            (message_shown m.now)) before (before ++ frame_in result) }
    {
        match m {
            Message::Run { head, .. } => self.stop_to(prompt, from, head.to, head.from),
            Message::Wide { head, .. } => self.stop_to(prompt, from, head.to, head.from),
            Message::Start { .. } | Message::Stop { .. } => None,
        }
    }

    // The STOP that answers a RUN with these ids.
    fn stop_to(&self, prompt: bool, from: Addr, to: u16, source: u16) -> Option<OutFrame>
        ensures { (c : Core) (before : List OutFrame) →
            Stands self.now c →
            Emits (told_stranger (side_of self.now) prompt c (address from.0)
            (head_with to source)) before (before ++ frame_in result) }
    {
        if prompt && self.is_stranger(from, to, source) {
            let server = self.circuits.is_server();
            Some(stray_stop(server, from, source, to, CircuitEnd::NoCircuit))
        } else {
            None
        }
    }
}

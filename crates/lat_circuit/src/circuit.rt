//! One end of a circuit.

ghost use Rattle.std.specs.Prelude.{◌≡◌, ◌<◌, [], length};
ghost use Rattle.std.specs.Borrow.{sem};
ghost use Rattle.lat_base.specs.Lending.{LendsPayload};

use crate::config::CircuitConfig;
use crate::link::Link;
use crate::moments::Moments;
use lat_base::{Mark, OutBox, Payload};
use lat_session::Sessions;
use std::marker::Model;

/// One end of a circuit. It stands for an end of the model, which has whole lists and unbounded numbers: contracts say for
/// every end that it stands for (`Stands`) what it stands for afterwards. Its ids, the width of its numbers and its window
/// are those of its link. See "Circuits" in docs/PROTOCOL.md.
#[derive(Drop)]
pub struct Circuit {
    pub(crate) config: CircuitConfig,
    /// A master: the reply was heard. A slave: always.
    pub(crate) running: bool,
    /// A RUN was heard.
    pub(crate) heard_run: bool,
    /// An acknowledgement is owed.
    pub(crate) owed: bool,
    /// The reason for which it ended.
    pub(crate) ended: Option<u8>,
    /// The rounds of repeats without progress, at most 8.
    pub(crate) rounds: u8,
    /// The room for slots in a message, in bytes.
    pub(crate) room: u16,
    /// In 10 ms.
    pub(crate) timer: u8,
    /// In seconds.
    pub(crate) keepalive: u8,
    pub(crate) moments: Moments,
    pub(crate) link: Link,
    pub(crate) sessions: Sessions,
}

impl Model for Circuit {
    ghost use Rattle.lat_circuit.specs.Kept.{Kept};

    ghost Value = { Kept };

    ghost use Rattle.lat_circuit.specs.Shown.{shown, IsSound};

    ghost view = { shown };

    ghost invariant = { IsSound };
}

/// Adds a frame to the peer of a circuit at the end of those that go out, and lends its payload, which has no byte yet.
pub(crate) fn lend<'a>(out: &'a mut OutBox, circuit: &Circuit, mark: Mark) -> &'a mut Payload
    requires { length out.old < 256 }
    ensures* written { sem 𝓛 (LendsPayload out.entry circuit.now.facts.config.peer circuit.now.facts.id mark result) }
    ensures empty { result.now ≡ [] }
{
    out.lend(circuit.config.peer, circuit.link.ids().from, mark)
}

//! How a circuit begins, and what is left of it.

ghost use Rattle.std.specs.Prelude.{◌≡◌, ◌+◌, ◌<◌, ◌≤◌, true, length, IfOk, OnErr};
ghost use Rattle.lat_frames.specs.Conditions.{InfoFits};
ghost use Rattle.lat_frames.specs.Timings.{IsTiming};
ghost use Rattle.lat_circuit.specs.Begins.{HasCalled, HasAnswered};
ghost use Rattle.lat_circuit.specs.Messages.{info_shown};

use crate::agreed::{agree_sessions, agreed_by, span_of};
use crate::circuit::Circuit;
use crate::config::CircuitConfig;
use crate::ids::Ids;
use crate::moments::Moments;
use crate::room::CircuitRoom;
use lat_base::{Memory, OutBox};
use lat_frames::StartInfo;
use lat_seq::Span;
use std::alloc::Global;

impl Circuit {
    /// Calls a circuit of this id, not 0, at a moment: makes a master, and sends START. The room must have been made for at
    /// least the sessions of the timing. It takes no memory. See "Calling" in docs/PROTOCOL.md.
    pub fn call_in(
        room: CircuitRoom,
        config: &CircuitConfig,
        id: u16,
        now: u64,
        out: &mut OutBox,
    ) -> Circuit
        requires timing { IsTiming config.now.timing }
        requires id { 0 < id }
        requires sessions { config.now.timing.sessions ≤ room }
        requires frames { length out.old + 16 ≤ 256 }
        ensures begins { HasCalled config.now id room now result out.old out.new }
    {
        let CircuitRoom {
            mut link,
            mut sessions,
        } = room;
        let timing = config.timing;
        let ids = Ids {
            master: true,
            to: 0,
            from: id,
        };
        link.start(ids, 1, Span::Byte);
        sessions.reset(true, timing.sessions, timing.ceiling);
        let circuit = Circuit {
            config: *config,
            running: false,
            heard_run: false,
            owed: false,
            ended: None,
            rounds: 0,
            room: 0,
            timer: timing.timer,
            keepalive: timing.keepalive,
            moments: Moments::called(now),
            link,
            sessions,
        };
        circuit.push_start(circuit.call_start(), out);
        circuit
    }

    /// Does what `call_in` does, with memory of its own. `Memory` where none is found; then nothing was sent.
    pub fn call(
        alloc: Global,
        config: &CircuitConfig,
        id: u16,
        now: u64,
        out: &mut OutBox,
    ) -> Result<Circuit, Memory>
        requires timing { IsTiming config.now.timing }
        requires id { 0 < id }
        requires frames { length out.old + 16 ≤ 256 }
        ensures begins { IfOk result (λ circuit.
            HasCalled config.now id config.now.timing.sessions now circuit out.old out.new) }
        ensures err { OnErr result (out.new ≡ out.old) }
    {
        let room = CircuitRoom::make(alloc, config.timing.sessions)?;
        Ok(Circuit::call_in(room, config, id, now, out))
    }

    /// Answers the START of a master, whose id of the circuit is `from`: makes a slave of this id, and sends the reply. Neither id
    /// is 0. The room must have been made for at least the sessions of the timing. It takes no memory.
    pub fn answer_in(
        room: CircuitRoom,
        config: &CircuitConfig,
        id: u16,
        from: u16,
        info: &StartInfo,
        now: u64,
        out: &mut OutBox,
    ) -> Circuit
        requires timing { IsTiming config.now.timing }
        requires ids { (0 < id) × (0 < from) }
        requires info { InfoFits true info.now }
        requires sessions { config.now.timing.sessions ≤ room }
        requires frames { length out.old + 16 ≤ 256 }
        ensures begins { HasAnswered config.now id from (info_shown info.now) room now result out.old out.new }
    {
        let CircuitRoom {
            mut link,
            mut sessions,
        } = room;
        let timing = config.timing;
        let agreed = agreed_by(&timing, info);
        let ids = Ids {
            master: false,
            to: from,
            from: id,
        };
        link.start(ids, agreed.window, span_of(agreed.wide));
        sessions.reset(false, timing.sessions, timing.ceiling);
        agree_sessions(&mut sessions, agreed.sessions);
        let circuit = Circuit {
            config: *config,
            running: true,
            heard_run: false,
            owed: false,
            ended: None,
            rounds: 0,
            room: agreed.room,
            timer: agreed.timer,
            keepalive: agreed.keepalive,
            moments: Moments::answered(now),
            link,
            sessions,
        };
        circuit.push_start(circuit.reply_start(), out);
        circuit
    }

    /// Does what `answer_in` does, with memory of its own. `Memory` where none is found; then nothing was sent.
    pub fn answer(
        alloc: Global,
        config: &CircuitConfig,
        id: u16,
        from: u16,
        info: &StartInfo,
        now: u64,
        out: &mut OutBox,
    ) -> Result<Circuit, Memory>
        requires timing { IsTiming config.now.timing }
        requires ids { (0 < id) × (0 < from) }
        requires info { InfoFits true info.now }
        requires frames { length out.old + 16 ≤ 256 }
        ensures begins { IfOk result (λ circuit.
            HasAnswered config.now id from (info_shown info.now) config.now.timing.sessions now circuit out.old out.new) }
        ensures err { OnErr result (out.new ≡ out.old) }
    {
        let room = CircuitRoom::make(alloc, config.timing.sessions)?;
        Ok(Circuit::answer_in(room, config, id, from, info, now, out))
    }

    /// The memory of the circuit, for another one.
    pub fn into_room(self) -> CircuitRoom
        ensures { result ≡ length self.sessions.sessions }
    {
        CircuitRoom {
            link: self.link,
            sessions: self.sessions,
        }
    }
}

//! What circuits do at a time event.

ghost use Rattle.std.specs.Prelude.{◌≤◌, ◌<◌, ◌+◌, length, slice_index};
ghost use Rattle.lat_machines.specs.cores.Cores.{passes_time};
ghost use Rattle.lat_lines.specs.circuits.Kept.{side_of, SameCircuits, ids};
ghost use Rattle.lat_lines.specs.circuits.Stands.{Simulates};
ghost use Rattle.lat_lines.specs.circuits.Times.{passes_one};

use crate::circuits::Circuits;
use lat_base::OutBox;

impl Circuits {
    /// Gives each living circuit the core's moment, by rising id, and puts the frames that are due into `out`, at most 16 a
    /// circuit. See "What a time event does" in docs/PROTOCOL.md.
    pub fn time(&mut self, out: &mut OutBox)
        requires room { length out.old + 128 ≤ 256 }
        ensures did { Simulates (passes_time (side_of self.old)) self.old self.new out.old out.new }
        ensures same { SameCircuits self.old self.new }
        ensures most { length out.new ≤ length out.old + 128 }
    {
        for at in 0..self.held.len() {
            self.time_at(at, out);
        }
    }

    // The time of the circuit at a place, where it lives.
    fn time_at(&mut self, at: usize, out: &mut OutBox)
        requires at { at < length self.old.held }
        requires room { length out.old + 16 ≤ 256 }
        ensures did { Simulates (passes_one (side_of self.old)
            (slice_index (ids self.old) at)) self.old self.new out.old out.new }
        ensures same { SameCircuits self.old self.new }
        ensures most { length out.new ≤ length out.old + 16 }
    {
        if !self.held[at].lives() {
            return;
        }
        let circuit = &mut self.held[at];
        circuit.time(self.moment, out);
    }
}

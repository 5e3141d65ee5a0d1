//! How a node is halted.

ghost use Rattle.std.specs.Prelude.{◌≡◌, ◌≤◌, ◌+◌, ◌++◌, List, length, IfOk, OnErr};
ghost use Rattle.lat_base.specs.declared.answer.Answer.TheVariants as answers;
ghost use Rattle.lat_base.specs.declared.outbox.OutFrame.{OutFrame};
ghost use Rattle.lat_machines.specs.node.Node as machine;
ghost use Rattle.lat_payload.specs.Frames.{Emits};
ghost use Rattle.lat_lines.specs.Strangers.{frame_in};
ghost use Rattle.lat_node.specs.Events.{Simulates};
ghost use Rattle.lat_node.specs.Kept.{config_of, SameConfig};
ghost use Rattle.lat_node.specs.Stands.{Stands};

use crate::hook::RatingRule;
use crate::node::NodeCore;
use crate::told::tell;
use lat_base::{Answer, EVERYONE, Memory, OutBox, OutFrame};
use lat_frames::CircuitEnd;
use lat_notices::Services;
use lat_payload::notice_frame;
use std::alloc::Global;

impl<H: RatingRule> NodeCore<H> {
    /// Ends each living circuit, by rising id, announces that no service is offered, and makes no circuit from then on. A second
    /// time nothing is sent and nothing changes. Takes its memory first. See "Halting" in docs/PROTOCOL.md.
    pub(crate) fn halt(&mut self, alloc: Global, out: &mut OutBox) -> Result<Answer, Memory>
        requires room { length out.old + 128 ≤ 256 }
        ensures does { IfOk result (λ a. Simulates machine.halts self.old self.new a out.old out.new) }
        ensures same { SameConfig self.old self.new }
        ensures done { IfOk result (λ a. a ≡ answers.Done) }
        ensures err { OnErr result ((self.new ≡ self.old) × (out.new ≡ out.old)) }
    {
        let farewell = self.farewell(alloc)?;
        self.lines.end_all(CircuitEnd::Halted, out);
        tell(farewell, out);
        self.halted = true;
        Ok(Answer::Done)
    }

    // The announcement that no service is offered; none where it was announced.
    fn farewell(&self, alloc: Global) -> Result<Option<OutFrame>, Memory>
        ensures { (s : machine.Node) (before : List OutFrame) →
            Stands self.now s →
            IfOk result (λ f. Emits (machine.farewell (config_of self.now) s.halted) before (before ++ frame_in f)) }
    {
        if self.halted {
            return Ok(None);
        }
        let announcement = self.announced(alloc, Services::new(alloc))?;
        Ok(Some(notice_frame(EVERYONE, &announcement)))
    }
}

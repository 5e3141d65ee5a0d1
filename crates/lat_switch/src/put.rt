//! Bytes that are put on a line.

ghost use Rattle.std.specs.Prelude.{◌≡◌, [], length, take, IfOk, OnErr};
ghost use Rattle.lat_base.specs.Answers.{PutFits, TookFits};
ghost use Rattle.lat_base.specs.declared.event.Event.TheVariants as events;
ghost use Rattle.lat_lines.specs.Kept.{IsLine};
ghost use Rattle.lat_switch.specs.Core.{ready};
ghost use Rattle.lat_switch.specs.Kept.{IsValid, IsSame};
ghost use Rattle.lat_switch.specs.Reading.{put_on, puts};
ghost use Rattle.lat_switch.specs.Stands.{Simulates};
ghost use Rattle.lat_switch.specs.Switch.{relays};

use crate::piece::pieces_of;
use crate::switch::SwitchCore;
use lat_base::{Answer, Bytes, Event, Memory, OutBox};
use std::alloc::Global;

/// No put reads more bytes.
const MOST: usize = 65_535;

// The bytes that are read of a put at most.
#[tactic(auto, using(crate::proofs::Firsts::whole))]
fn first_bytes(bytes: &[u8]) -> &[u8]
    ensures { result.now ≡ take 65535 bytes.now }
{
    if bytes.len() <= MOST {
        return bytes;
    }
    &bytes[..MOST]
}

impl SwitchCore {
    /// Reads bytes that are put on a line: keys, and runs of other bytes for the shown inner line. Takes memory for them first;
    /// after `Memory` nothing has changed.
    pub(crate) fn put(
        &mut self,
        alloc: Global,
        line: u8,
        bytes: &[u8],
        out: &mut OutBox,
    ) -> Result<Answer, Memory>
        requires valid { IsValid self.old }
        requires line { IsLine (length self.old.lines) line }
        requires empty { out.old ≡ [] }
        ensures valid { IsValid self.new }
        ensures same { IsSame self.old self.new }
        ensures does { IfOk result (λ a.
            Simulates (puts line bytes.now) self.old self.new a out.old out.new) }
        ensures put { IfOk result (λ a. PutFits a (events.Put line bytes.now)) }
        ensures took { IfOk result (λ a. TookFits (ready self.old) a (events.Put line bytes.now)) }
        ensures unchanged { OnErr result (self.new ≡ self.old) }
        ensures silent { OnErr result (out.new ≡ []) }
    {
        if bytes.is_empty() {
            let none = Bytes::copy(alloc, bytes)?;
            return Ok(self.put_nothing(line, none, out));
        }
        let pieces = pieces_of(alloc, first_bytes(bytes))?;
        self.reserve(alloc)?;
        let progress = self.read(line, pieces, out);
        Ok(progress.answer())
    }

    // An empty put on the shown inner line.
    fn put_nothing(&mut self, line: u8, none: Bytes, out: &mut OutBox) -> Answer
        requires valid { IsValid self.old }
        requires line { IsLine (length self.old.lines) line }
        requires empty { out.old ≡ [] }
        requires none { none ≡ [] }
        ensures valid { IsValid self.new }
        ensures same { IsSame self.old self.new }
        ensures does { Simulates (λ c.
            relays (put_on line [] c) c) self.old self.new result out.old out.new }
        ensures put { PutFits result (events.Put line []) }
        ensures took { TookFits (ready self.old) result (events.Put line []) }
    {
        let event = Event::Put {
            line: self.line_at(line).shown(),
            bytes: none,
        };
        self.tell(&event, out)
    }
}

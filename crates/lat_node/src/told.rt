//! A frame that goes out, or none.

ghost use Rattle.std.specs.Prelude.{◌≡◌, ◌<◌, ◌≤◌, ◌+◌, ◌++◌, length};
ghost use Rattle.lat_lines.specs.Strangers.{frame_in};

use lat_base::{OutBox, OutFrame};

/// The frame goes out, if there is one.
pub(crate) fn tell(frame: Option<OutFrame>, out: &mut OutBox)
    requires room { length out.old < 256 }
    ensures frames { out.new ≡ out.old ++ frame_in frame }
    ensures most { length out.new ≤ length out.old + 1 }
{
    if let Some(frame) = frame {
        out.push(frame);
    }
}

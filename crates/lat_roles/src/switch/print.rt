//! Shown lines in words.

ghost use Rattle.lat_switch.specs.Kept.{IsValid};

use lat_base::Core;
use lat_script::state_word;
use lat_switch::SwitchCore;
use std::alloc::AllocError;

/// Adds which inner line a line shows to the text, the state of its session, and how many items wait.
pub fn shown_onto(text: &mut String, switch: &SwitchCore, line: u8) -> Result<(), AllocError>
    requires { IsValid switch.now }
{
    let Some(shown) = switch.shown(line) else {
        return Ok(());
    };
    let look = switch.look(line);
    let (state, waiting) = (state_word(look.state), look.waiting);
    write!(
        text,
        "line {line} shows {shown} {state} waiting {waiting}\n"
    )
}

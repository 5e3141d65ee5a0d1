//! Blocks over names.

use crate::site::Site;
use lat_base::{Memory, Name, NameFault};
use lat_script::{ScriptFault, bytes, no_command, word};
use lat_text::name_onto;
use std::alloc::Global;

/// Names that are read, of which nothing is kept.
#[derive(Drop)]
pub struct NameReading;

// The name that these bytes are and its key, or why they are none.
fn name_line_onto(text: &mut String, bytes: &[u8]) -> Result<(), Memory> {
    match Name::read(bytes) {
        Ok(name) => {
            name_onto(text, &name)?;
            text.push_str(" key ")?;
            name_onto(text, &name.folded())?;
            text.push_str("\n")?;
        }
        Err(NameFault::Empty) => text.push_str("empty\n")?,
        Err(NameFault::Long(count)) => write!(text, "{count} bytes\n")?,
        Err(NameFault::Byte(at)) => write!(text, "byte {at}\n")?,
    }
    Ok(())
}

impl Site for NameReading {
    fn act(&mut self, alloc: Global, line: &str, text: &mut String) -> Result<(), ScriptFault> {
        if word(line, 0) != "name" {
            return Err(no_command(0));
        }
        let bytes = bytes(alloc, line, 1)?;
        Ok(name_line_onto(text, bytes.as_slice())?)
    }
}

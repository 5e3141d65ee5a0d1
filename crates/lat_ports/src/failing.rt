//! Which calls are to fail.

use lat_script::{ScriptFault, number, word};
use std::alloc::Global;

/// The numbers that stand in a line from this place on, seven at most.
pub fn failing(alloc: Global, line: &str, place: u8) -> Result<Vec<u64>, ScriptFault> {
    let mut calls = Vec::new(alloc);
    for at in 0..7_u8 {
        let place = place.saturating_add(at);
        if word(line, place).is_empty() {
            break;
        }
        calls.push(number(line, place)?)?;
    }
    Ok(calls)
}

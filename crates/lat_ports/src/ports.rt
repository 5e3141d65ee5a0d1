//! Blocks over an opener of ports.

use crate::callers::{caller_of, callers_of, is_caller};
use crate::calls::call_onto;
use crate::failing::failing;
use crate::site::{Site, first_of, play_lines};
use lat_base::{Addr, Memory};
use lat_outside::{MemCaller, MemCallers, MemPorts, MemScript, PortFault, PortOpener, Strays};
use lat_script::{Part, ScriptFault, byte_within, short, word};
use std::alloc::{AllocError, Global};

/// The station of each carrier.
const OWN: Addr = Addr([0xaa, 0x00, 0x04, 0x00, 0x01, 0x04]);

/// An opener, and the line that it opened last.
#[derive(Drop)]
struct Ports<'a> {
    opener: MemPorts<'a>,
    line: Option<MemCallers<'a>>,
}

fn fault_onto(text: &mut String, fault: PortFault) -> Result<(), AllocError> {
    let words = fault.words();
    write!(text, "{words}\n")
}

impl<'a> Ports<'a> {
    // Opens a carrier with so many peers, nine at most.
    fn carrier(&mut self, count: u8, text: &mut String) -> Result<(), AllocError> {
        let peers = [1; 9];
        let (front, _) = peers.as_slice().split_at(usize::from(count.min(9)));
        match self.opener.open_carrier(OWN, 2000, front) {
            Ok((_, rx)) => {
                let strays = rx.strays();
                write!(text, "opened, strays {strays}\n")
            }
            Err(fault) => fault_onto(text, fault),
        }
    }

    fn port(&mut self, port: u16, text: &mut String) -> Result<(), AllocError> {
        match self.opener.open_port(port) {
            Ok(line) => {
                self.line = Some(line);
                text.push_str("opened\n")
            }
            Err(fault) => fault_onto(text, fault),
        }
    }

    fn dialling(&mut self, text: &mut String) -> Result<(), AllocError> {
        self.line = Some(self.opener.open_dialling());
        text.push_str("opened\n")
    }

    // A call of the line that was opened last.
    fn call(&mut self, alloc: Global, call: &str, text: &mut String) -> Result<(), ScriptFault> {
        match &mut self.line {
            Some(line) => call_onto(alloc, line, call, text),
            None => Ok(text.push_str("no line\n")?),
        }
    }
}

impl Site for Ports<'_> {
    fn act(&mut self, alloc: Global, line: &str, text: &mut String) -> Result<(), ScriptFault> {
        if is_caller(line) {
            caller_of(alloc, line)?;
            return Ok(());
        }
        match word(line, 0) {
            "carrier" => Ok(self.carrier(byte_within(0, 9, line, 1)?, text)?),
            "port" => Ok(self.port(short(line, 1)?, text)?),
            "dialling" => Ok(self.dialling(text)?),
            _ => self.call(alloc, line, text),
        }
    }
}

// A list of one for each of these callers.
fn scripts_of(alloc: Global, callers: Vec<MemCaller>) -> Result<Vec<MemScript>, Memory> {
    let mut scripts = Vec::new(alloc);
    for caller in callers {
        let mut callers = Vec::new(alloc);
        callers.push(caller)?;
        scripts.push(MemScript { callers })?;
    }
    Ok(scripts)
}

/// Plays a block over an opener of ports.
pub fn play_ports(alloc: Global, block: Part, text: &mut String) -> Result<(), ScriptFault> {
    let failing = failing(alloc, first_of(block), 1)?;
    let scripts = scripts_of(alloc, callers_of(alloc, block)?)?;
    let mut site = Ports {
        opener: MemPorts::new(alloc, &[], scripts.as_slice(), failing.as_slice()),
        line: None,
    };
    Ok(play_lines(alloc, &mut site, block, text)?)
}

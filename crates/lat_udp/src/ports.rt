//! What opens the ports of a daemon.

ghost use Rattle.std.specs.Prelude.{◌≡◌, ◌≢◌, ◌↔◌, Some, None};
ghost use Rattle.std.specs.declared.io.ErrorKind.{ErrorKind};
ghost use Rattle.lat_outside.specs.Openings.{no_openings};

use crate::callers::{Listening, TcpCallers};
use crate::fault::more;
use crate::opener::carrier;
use crate::udp::{UdpRx, UdpTx};
use arrayvec::ArrayVec;
use lat_base::Addr;
use lat_outside::{Openings, PortFault, PortOpener};
use std::io::ErrorKind;
use std::net::{Net, TcpListener, TcpStream};

/// Why a port wasn't opened, by the system's error.
pub fn fault_of(kind: ErrorKind) -> PortFault
    ensures in_use { result ≡ PortFault.InUse ↔ kind ≡ ErrorKind.AddrInUse }
    ensures denied { result ≡ PortFault.Denied ↔ kind ≡ ErrorKind.PermissionDenied }
    ensures peers { result ≢ PortFault.Peers }
{
    match kind {
        ErrorKind::AddrInUse => PortFault::InUse,
        ErrorKind::PermissionDenied => PortFault::Denied,
        _ => PortFault::Other,
    }
}

/// Opens the ports of a daemon over UDP and TCP, on the loopback address.
#[derive(Drop)]
pub struct NetPorts<R: Net<Listener = TcpListener, Stream = TcpStream> + Copy> {
    rt: R,
    asked: Openings,
    faults: u64,
}

impl<R: Net<Listener = TcpListener, Stream = TcpStream> + Copy> NetPorts<R> {
    /// An opener that nothing was asked of. Its count of faults is 0.
    pub fn new(rt: R) -> NetPorts<R>
        ensures { (result.asked ≡ no_openings) × (result.faults ≡ 0) }
    {
        NetPorts {
            rt,
            asked: Openings::new(),
            faults: 0,
        }
    }
}

impl<R: Net<Listener = TcpListener, Stream = TcpStream> + Copy + Send> PortOpener for NetPorts<R> {
    type T = UdpTx;

    type R = UdpRx;

    type C = TcpCallers<R>;

    ghost asked = { λ opener. opener.asked };

    ghost faults = { λ opener. opener.faults };

    fn open_carrier(
        &mut self,
        own: Addr,
        port: u16,
        peers: &[u16],
    ) -> Result<(UdpTx, UdpRx), PortFault> {
        self.asked.ask_carrier(own, port, peers);
        let Ok(heard) = ArrayVec::try_from(peers) else {
            more(&mut self.faults);
            return Err(PortFault::Peers);
        };
        let Ok(told) = ArrayVec::try_from(peers) else {
            more(&mut self.faults);
            return Err(PortFault::Peers);
        };
        match carrier(&self.rt, own, port, heard, told) {
            Ok(halves) => Ok(halves),
            Err(error) => {
                more(&mut self.faults);
                Err(fault_of(error.kind()))
            }
        }
    }

    fn open_port(&mut self, port: u16) -> Result<TcpCallers<R>, PortFault> {
        self.asked.ask_line(Some(port));
        match Listening::open(&self.rt, port) {
            Ok(listening) => Ok(TcpCallers::new(self.rt, Some(listening))),
            Err(error) => {
                more(&mut self.faults);
                Err(fault_of(error.kind()))
            }
        }
    }

    fn open_dialling(&mut self) -> TcpCallers<R> {
        self.asked.ask_line(None);
        TcpCallers::new(self.rt, None)
    }
}

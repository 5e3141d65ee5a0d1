//! What opens the sockets.

ghost use Rattle.std.specs.Prelude.{◌≡◌, IfOk};

use crate::fault::{WAIT_MS, more};
use crate::line::TcpLine;
use crate::udp::{PEERS, UdpRx, UdpTx};
use arrayvec::ArrayVec;
use lat_base::Addr;
use lat_outside::{Failed, Opener};
use std::io;
use std::net::{Ipv4Addr, Net, TcpListener, TcpStream, UdpSocket};
use std::time::{Clock, Duration};

/// Opens sockets on the loopback address. A carrier for more than eight peers is a fault. A line waits until someone connects.
#[derive(Drop)]
pub struct NetOpener<R: Net<Listener = TcpListener, Stream = TcpStream> + Clock + Copy> {
    rt: R,
    faults: u64,
}

// Both halves of a socket whose reads wait a little.
fn halves<R: Net>(rt: &R, port: u16) -> io::Result<(UdpSocket, UdpSocket)> {
    let socket = UdpSocket::bind(rt, (Ipv4Addr::LOCALHOST, port))?;
    socket.set_read_timeout(Some(Duration::from_millis(WAIT_MS)))?;
    let other = socket.try_clone()?;
    Ok((socket, other))
}

/// The two halves of a carrier for the station with this address, which hears the first ports alone, and sends to the others. Their
/// counts of faults and strays are 0.
pub(crate) fn carrier<R: Net>(
    rt: &R,
    own: Addr,
    port: u16,
    heard: ArrayVec<u16, PEERS>,
    told: ArrayVec<u16, PEERS>,
) -> io::Result<(UdpTx, UdpRx)>
    ensures { IfOk result (λ halves. (halves.0.faults ≡ 0) × (halves.1.faults ≡ 0) × (halves.1.ear.strays ≡ 0)) }
{
    let (sending, receiving) = halves(rt, port)?;
    Ok((
        UdpTx::new(sending, own, told),
        UdpRx::new(receiving, own, heard),
    ))
}

// The first connection to this port.
fn accepted<R: Net<Listener = TcpListener, Stream = TcpStream>>(
    rt: &R,
    port: u16,
) -> io::Result<TcpStream> {
    let listener = TcpListener::bind(rt, (Ipv4Addr::LOCALHOST, port))?;
    let (stream, _) = listener.accept()?;
    stream.set_read_timeout(Some(Duration::from_millis(WAIT_MS)))?;
    Ok(stream)
}

impl<R: Net<Listener = TcpListener, Stream = TcpStream> + Clock + Copy> NetOpener<R> {
    /// An opener whose count of faults is 0.
    pub fn new(rt: R) -> NetOpener<R>
        ensures { result.faults ≡ 0 }
    {
        NetOpener { rt, faults: 0 }
    }
}

impl<R: Net<Listener = TcpListener, Stream = TcpStream> + Clock + Copy + Send> Opener
    for NetOpener<R> {
    type T = UdpTx;

    type R = UdpRx;

    type L = TcpLine<R>;

    ghost faults = { λ opener. opener.faults };

    fn open_carrier(
        &mut self,
        own: Addr,
        port: u16,
        peers: &[u16],
    ) -> Result<(UdpTx, UdpRx), Failed> {
        if let Ok(heard) = ArrayVec::try_from(peers)
            && let Ok(told) = ArrayVec::try_from(peers)
            && let Ok(halves) = carrier(&self.rt, own, port, heard, told)
        {
            return Ok(halves);
        }
        more(&mut self.faults);
        Err(Failed)
    }

    fn open_line(&mut self, port: u16) -> Result<TcpLine<R>, Failed> {
        match accepted(&self.rt, port) {
            Ok(stream) => Ok(TcpLine::new(self.rt, stream)),
            Err(_) => {
                more(&mut self.faults);
                Err(Failed)
            }
        }
    }
}

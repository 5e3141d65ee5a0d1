//! A carrier over UDP on the loopback address.

ghost use Rattle.std.specs.Prelude.{◌≡◌, None};

use crate::datagram::{DATAGRAM_BYTES, put_datagram};
use crate::ear::Ear;
use crate::fault::{is_quiet, more};
use arrayvec::ArrayVec;
use lat_base::{Addr, PAYLOAD_BYTES};
use lat_outside::{Failed, Got, MOST_PEERS, Rx, Strays, Tx};
use std::net::{Ipv4Addr, UdpSocket};

/// How many peers a carrier has at most.
pub const PEERS: usize = MOST_PEERS;

/// The sending half: each frame goes to each peer's port. It tells no frames. A frame that is too long, or that doesn't go out
/// whole to some peer, is a fault.
#[derive(Drop)]
pub struct UdpTx {
    socket: UdpSocket,
    own: Addr,
    peers: ArrayVec<u16, PEERS>,
    faults: u64,
}

impl UdpTx {
    /// A half for the station with this address, which sends to these ports. Its count of faults is 0.
    pub fn new(socket: UdpSocket, own: Addr, peers: ArrayVec<u16, PEERS>) -> UdpTx
        ensures { result.faults ≡ 0 }
    {
        UdpTx {
            socket,
            own,
            peers,
            faults: 0,
        }
    }

    // To each peer, whether or not an earlier one failed.
    fn send_to_all(&self, datagram: &[u8]) -> bool {
        let mut whole = true;
        for port in self.peers.iter() {
            match self.socket.send_to(datagram, (Ipv4Addr::LOCALHOST, *port)) {
                Ok(count) => whole = whole && count == datagram.len(),
                Err(_) => whole = false,
            }
        }
        whole
    }
}

impl Tx for UdpTx {
    ghost tried = { λ tx. None };

    ghost faults = { λ tx. tx.faults };

    fn send(&mut self, to: Addr, payload: &[u8]) -> Result<(), Failed> {
        if payload.len() <= PAYLOAD_BYTES {
            let mut place = [0; DATAGRAM_BYTES];
            let end = put_datagram(to, self.own, payload, &mut place);
            if self.send_to_all(&place[..end]) {
                return Ok(());
            }
        }
        more(&mut self.faults);
        Err(Failed)
    }
}

/// The receiving half. It tells no frames. What comes from others than its peers is counted; that, what isn't for its station, and
/// what comes not at all for 10 ms, is quiet.
#[derive(Drop)]
pub struct UdpRx {
    socket: UdpSocket,
    ear: Ear,
    faults: u64,
}

impl UdpRx {
    /// A half for the station with this address, which hears these ports. Its counts of faults and strays are 0.
    pub fn new(socket: UdpSocket, own: Addr, peers: ArrayVec<u16, PEERS>) -> UdpRx
        ensures { (result.faults ≡ 0) × (result.ear.strays ≡ 0) }
    {
        UdpRx {
            socket,
            ear: Ear::new(own, peers),
            faults: 0,
        }
    }
}

impl Strays for UdpRx {
    ghost strays = { λ rx. rx.ear.strays };

    fn strays(&self) -> u64 {
        self.ear.strays()
    }
}

impl Rx for UdpRx {
    ghost left = { λ rx. None };

    ghost faults = { λ rx. rx.faults };

    fn recv(&mut self, buf: &mut [u8; PAYLOAD_BYTES]) -> Result<Got, Failed> {
        // one byte more than a datagram may have, so that a longer one shows
        let mut place = [0; DATAGRAM_BYTES + 1];
        let (count, from) = match self.socket.recv_from(&mut place) {
            Ok(came) => came,
            Err(error) => {
                if is_quiet(error.kind()) {
                    return Ok(Got::Quiet);
                }
                more(&mut self.faults);
                return Err(Failed);
            }
        };
        match self.ear.hear(from, &place[..count]) {
            None => Ok(Got::Quiet),
            Some((from, payload)) => {
                let len = payload.len();
                buf[..len].copy_from_slice(payload);
                Ok(Got::Frame {
                    from,
                    len: len as u16,
                })
            }
        }
    }
}

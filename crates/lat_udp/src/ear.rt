//! Whom a carrier hears.

ghost use Rattle.std.specs.Prelude.{◌≡◌, ◌≤◌, length, IfSome, None};
ghost use Rattle.lat_udp.specs.Datagrams.{IsFor, IsSentTo};
ghost use Rattle.lat_udp.specs.Peers.{IsPeer, is_peer, one_more};

use crate::datagram::{DATAGRAM_BYTES, heard};
use crate::udp::PEERS;
use arrayvec::ArrayVec;
use lat_base::{Addr, EVERYONE};
use std::net::SocketAddr;

/// Whether a datagram came from one of these ports on the loopback address.
pub fn is_peer(peers: &[u16], from: SocketAddr) -> bool
    ensures { result ≡ is_peer peers.now from }
{
    match from {
        SocketAddr::V4(at) => at.ip().octets() == [127, 0, 0, 1] && peers.contains(&at.port()),
        SocketAddr::V6(_) => false,
    }
}

/// A station's ear: what it hears of the datagrams that come to it, and how many came from others than its peers.
#[derive(Drop)]
pub struct Ear {
    own: Addr,
    peers: ArrayVec<u16, PEERS>,
    strays: u64,
}

impl Ear {
    /// The ear of the station with this address, which hears these ports. No datagram came yet.
    pub fn new(own: Addr, peers: ArrayVec<u16, PEERS>) -> Ear
        ensures { (result.own ≡ own) × (result.peers ≡ peers) × (result.strays ≡ 0) }
    {
        Ear {
            own,
            peers,
            strays: 0,
        }
    }

    /// How many datagrams came from others than the peers. The count stops at 2^64 - 1.
    pub fn strays(&self) -> u64
        ensures { result ≡ self.now.strays }
    {
        self.strays
    }

    /// A datagram came from there. What is heard of it is the sender's address and the payload, where it came from a peer, is
    /// 1,514 bytes at most, and is sent to the station or to everyone; `None` exactly where not. From others than peers nothing
    /// is heard, and each is counted.
    pub fn hear<'a>(&mut self, from: SocketAddr, bytes: &'a [u8]) -> Option<(Addr, &'a [u8])>
        ensures within { IfSome result (λ r. length r.1.now ≤ 1500) }
        ensures peer { IfSome result (λ r. IsPeer self.old.peers.items from) }
        ensures sent { IfSome result (λ r. IsFor self.old.own.0 EVERYONE.0 r.0.0 r.1.now bytes.entry.now) }
        ensures none { result ≡ None → IsPeer self.old.peers.items from → length bytes.entry.now ≤ 1514
            → ¬ (IsSentTo self.old.own.0 EVERYONE.0 bytes.entry.now) }
        ensures heard { IsPeer self.old.peers.items from → self.new ≡ self.old }
        ensures stray { ¬ (IsPeer self.old.peers.items from)
            → self.new ≡ record self.old { strays = one_more self.old.strays } }
    {
        if !is_peer(self.peers.as_slice(), from) {
            self.strays = self.strays.saturating_add(1);
            return None;
        }
        if bytes.len() > DATAGRAM_BYTES {
            return None;
        }
        heard(self.own, bytes)
    }
}

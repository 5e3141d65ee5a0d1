//! Circuit messages.

use crate::slots::Slots;
use lat_base::{Bytes, Name};
use lat_fields::Params;

/// The head of a RUN message.
#[derive(Clone, Copy)]
pub struct Head {
    /// Whether the circuit's master sent it.
    pub master: bool,
    /// Whether a reply is asked for.
    pub ask: bool,
    /// The circuit's id at the end that hears it, and at the end that sends it; neither is 0.
    pub to: u16,
    pub from: u16,
    /// Its number modulo 256.
    pub seq: u8,
    /// The number of the last message that its sender has taken, modulo 256.
    pub ack: u8,
}

/// The head of a wide RUN message, whose numbers have two bytes.
#[derive(Clone, Copy)]
pub struct WideHead {
    /// Whether the circuit's master sent it.
    pub master: bool,
    /// Whether a reply is asked for.
    pub ask: bool,
    /// The circuit's id at the end that hears it, and at the end that sends it; neither is 0.
    pub to: u16,
    pub from: u16,
    /// Its number modulo 65,536.
    pub seq: u16,
    /// The number of the last message that its sender has taken, modulo 65,536.
    pub ack: u16,
}

/// What the sender of a START can do, with the times of the circuit: the first six fields of `StartInfo`.
#[derive(Clone, Copy)]
pub struct Limits {
    pub size: u16,
    pub eco: u8,
    pub sessions: u8,
    pub extra: u8,
    pub timer: u8,
    pub keepalive: u8,
}

/// What a START message tells of its sender.
pub struct StartInfo {
    /// The greatest frame that it takes, 576 to 1,518 bytes.
    pub size: u16,
    /// The engineering change order of the protocol version.
    pub eco: u8,
    /// How many sessions it holds on the circuit, 1 to 255.
    pub sessions: u8,
    /// How many buffers beyond the first it has for messages.
    pub extra: u8,
    /// The circuit timer in 10 ms; of a master 1 to 100.
    pub timer: u8,
    /// The keep-alive time in seconds; of a master 1 to 255.
    pub keepalive: u8,
    pub facility: u16,
    pub product: u8,
    pub product_version: u8,
    /// The node's name.
    pub slave: Name,
    /// The server's name.
    pub name: Name,
    pub location: Bytes,
    pub params: Params,
}

impl Drop for StartInfo {
    fn drop(self) {
        let Self {
            size,
            eco,
            sessions,
            extra,
            timer,
            keepalive,
            facility,
            product,
            product_version,
            slave,
            name,
            location,
            params,
        } = self;
    }
}

/// A message of a circuit. `master` and `ask` are the two low bits of its first byte.
#[derive(Drop)]
pub enum Message {
    /// Carries slots.
    Run {
        head: Head,
        slots: Slots,
    },
    /// Carries slots on a circuit with wide numbers.
    Wide {
        head: WideHead,
        slots: Slots,
    },
    /// Calls a circuit, with `master` set and `to` 0, or replies to the call.
    Start {
        master: bool,
        ask: bool,
        to: u16,
        from: u16,
        info: StartInfo,
    },
    /// Ends a circuit, or refuses it with `from` 0.
    Stop {
        master: bool,
        ask: bool,
        to: u16,
        from: u16,
        reason: u8,
        text: Bytes,
    },
}

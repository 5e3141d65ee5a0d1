//! The switch core.

use crate::line::Line;
use lat_server::ServerCore;
use std::marker::Model;

/// A terminal server with several sessions on each line: four inner lines of a server core without offers, one of which is
/// shown. Contracts say for every state of the switch that it stands for what it stands for afterwards. See "Several sessions
/// on one line" in docs/PROTOCOL.md.
pub struct SwitchCore {
    pub(crate) inner: ServerCore,
    pub(crate) lines: Vec<Line>,
}

impl Drop for SwitchCore {
    fn drop(self) {
        let Self { inner, lines } = self;
    }
}

impl Model for SwitchCore {
    ghost use Rattle.lat_switch.specs.Kept.{Kept, Holds};

    ghost Value = { Kept };

    ghost view = { λ a. record { inner = a.inner; lines = a.lines.items } };

    ghost invariant = { λ a. Holds (record { inner = a.inner; lines = a.lines.items }) };
}

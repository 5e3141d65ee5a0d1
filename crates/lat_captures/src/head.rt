//! What a capture says of its circuit, and what a RUN says of itself.

ghost use Rattle.std.specs.Prelude.{◌≡◌};
ghost use Rattle.lat_captures.specs.Tests.{ids_hold};

/// The circuit of a capture.
#[derive(Clone, Copy)]
pub struct Title {
    /// Its id at the master, and at the slave.
    pub master: u16,
    pub slave: u16,
    /// Whether its message numbers have two bytes.
    pub wide: bool,
}

/// The head of a RUN, of either span.
#[derive(Clone, Copy)]
pub struct RunHead {
    /// Whether its message numbers have two bytes.
    pub wide: bool,
    /// Whether it says that the master sent it.
    pub master: bool,
    /// The circuit's id at the end that hears it, and at the end that sends it.
    pub to: u16,
    pub from: u16,
    /// The fields of its number and of its acknowledgement.
    pub seq: u16,
    pub ack: u16,
}

impl Title {
    /// Whether a RUN that this end sent has the span, the ids and the master bit that it has to have.
    pub fn has(&self, by_master: bool, head: &RunHead) -> bool
        ensures { result ≡ ids_hold self.now by_master head.now }
    {
        let (to, from) = if by_master {
            (self.slave, self.master)
        } else {
            (self.master, self.slave)
        };
        head.wide == self.wide && head.master == by_master && head.to == to && head.from == from
    }
}

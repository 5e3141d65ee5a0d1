//! The kinds of lines.

ghost use Rattle.std.specs.Prelude.{◌≡◌};
ghost use Rattle.lat_mind.specs.Kinds.{is_calling, is_offering};

/// How a line comes to callers and to sessions.
#[derive(Clone, Copy)]
pub enum Kind {
    /// A line of a server or a switch: callers come to its port, and it connects a session for each.
    Calling,
    /// A line of a node: sessions come to it. For each a device is dialled, or it is for the caller who waits at the line's
    /// port, or the next one who comes there.
    Answering,
    /// A line of a server that offers a service: its device is dialled when somebody waits for the service, and sessions come to
    /// the line only while it is ready.
    Offering,
}

impl Kind {
    pub(crate) fn is_calling(self) -> bool
        ensures { result ≡ is_calling self }
    {
        matches!(self, Kind::Calling)
    }

    pub(crate) fn is_offering(self) -> bool
        ensures { result ≡ is_offering self }
    {
        matches!(self, Kind::Offering)
    }
}

//! The columns of tables.

ghost use Rattle.std.specs.Prelude.{◌≡◌};
ghost use Rattle.lat_tables.specs.Columns.{side_of, title_text};

/// A column of a table. `docs/FORMATS.md`, "The control socket", says what stands in each.
#[derive(Clone, Copy)]
pub enum Column {
    Line,
    State,
    Session,
    Service,
    Peer,
    Waiting,
    Ended,
    Rating,
    Node,
    Address,
    Expires,
    Id,
    PeerId,
    Name,
    Timer,
    KeepAlive,
    Sessions,
    Unacknowledged,
    Rounds,
    Place,
    Request,
    Counter,
    Count,
}

/// At which side of its column a cell stands.
#[derive(Clone, Copy)]
pub enum Side {
    Left,
    Right,
}

impl Column {
    /// What stands above it.
    pub fn title(self) -> &'static str
        ensures { result.now ≡ title_text self }
    {
        match self {
            Column::Line => "LINE",
            Column::State => "STATE",
            Column::Session => "SESSION",
            Column::Service => "SERVICE",
            Column::Peer => "PEER",
            Column::Waiting => "WAITING",
            Column::Ended => "ENDED",
            Column::Rating => "RATING",
            Column::Node => "NODE",
            Column::Address => "ADDRESS",
            Column::Expires => "EXPIRES",
            Column::Id => "ID",
            Column::PeerId => "PEER-ID",
            Column::Name => "NAME",
            Column::Timer => "TIMER",
            Column::KeepAlive => "KEEP-ALIVE",
            Column::Sessions => "SESSIONS",
            Column::Unacknowledged => "UNACKNOWLEDGED",
            Column::Rounds => "ROUNDS",
            Column::Place => "PLACE",
            Column::Request => "REQUEST",
            Column::Counter => "COUNTER",
            Column::Count => "COUNT",
        }
    }

    /// The side of its cells, and of its title: the right one where it has numbers, the left one where it has texts.
    pub fn side(self) -> Side
        ensures { result ≡ side_of self }
    {
        match self {
            Column::State
            | Column::Service
            | Column::Peer
            | Column::Ended
            | Column::Node
            | Column::Address
            | Column::Name
            | Column::Counter => Side::Left,
            _ => Side::Right,
        }
    }
}

//! Why a line is no command.

ghost use Rattle.std.specs.Prelude.{◌≡◌};
ghost use Rattle.lat_tables.specs.Commands.{fault_text};

/// Why a line is no command.
#[derive(Clone, Copy)]
pub enum CommandFault {
    /// No command begins with its first word.
    Command,
    /// Nothing that is shown has the word behind `show`.
    Shown,
    /// No number of entries stands behind `history`.
    Count,
    /// No number of a line stands behind `hang-up`.
    Line,
    /// A word stands behind the command.
    Further,
}

impl CommandFault {
    /// The answer to such a line: `?` and what was expected, without a line feed.
    pub fn text(self) -> &'static str
        ensures { result.now ≡ fault_text self }
    {
        match self {
            CommandFault::Command => "? show, hang-up, stop or help",
            CommandFault::Shown => "? lines, services, circuits, requests, counters or history",
            CommandFault::Count => "? how many entries, 1 to 1000000",
            CommandFault::Line => "? a line, 1 to 255",
            CommandFault::Further => "? nothing further",
        }
    }
}

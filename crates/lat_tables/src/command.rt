//! The commands of the control socket.

ghost use Rattle.std.specs.Prelude.{◌≡◌, ◌++◌, OnOk, string_bytes};
ghost use Rattle.lat_tables.specs.Commands.{command_text, listing_text};

use std::alloc::AllocError;

/// What a core's tables are of.
#[derive(Clone, Copy)]
pub enum Listing {
    Lines,
    Services,
    Circuits,
    Requests,
}

/// What an operator asks a daemon. `docs/FORMATS.md`, "The control socket", says what each does.
#[derive(Clone, Copy)]
pub enum Command {
    /// The table of what the core shows.
    Show(Listing),
    ShowCounters,
    /// So many of the last entries of the history, 1 to 1,000,000.
    ShowHistory(u32),
    /// The caller of this line is to be hung up.
    HangUp(u8),
    /// The daemon is to stop.
    Stop,
    Help,
}

fn listing_text(listing: Listing) -> &'static str
    ensures { result.now ≡ listing_text listing }
{
    match listing {
        Listing::Lines => "lines",
        Listing::Services => "services",
        Listing::Circuits => "circuits",
        Listing::Requests => "requests",
    }
}

/// Adds a command as it is typed, without a line feed. After want of memory a part of it may stand in the text.
pub fn command_onto(text: &mut String, command: Command) -> Result<(), AllocError>
    ensures { OnOk result (string_bytes text.new ≡ string_bytes text.old ++ command_text command) }
{
    match command {
        Command::Show(listing) => {
            text.push_str("show ")?;
            text.push_str(listing_text(listing))
        }
        Command::ShowCounters => text.push_str("show counters"),
        Command::ShowHistory(count) => write!(text, "show history {count}"),
        Command::HangUp(line) => write!(text, "hang-up {line}"),
        Command::Stop => text.push_str("stop"),
        Command::Help => text.push_str("help"),
    }
}

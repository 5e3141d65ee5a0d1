//! What a line says that is typed at the prompt.

use lat_base::Name;

/// A command of local mode.
#[derive(Clone, Copy)]
pub enum Command {
    /// A line without a word: nothing is to be done.
    Blank,
    /// `connect NAME`: a session for this service.
    Connect(Name),
    /// `resume`: back into the session that stays.
    Resume,
    /// `disconnect`: the session that stays is closed.
    Disconnect,
    /// `show services`.
    ShowServices,
    /// `show sessions`.
    ShowSessions,
    /// `help`.
    Help,
    /// `logout`: the caller is hung up.
    Logout,
}

/// Why a line is no command.
#[derive(Clone, Copy, PartialEq, Eq)]
pub enum CommandFault {
    /// No command begins with its first word.
    UnknownCommand,
    /// `show`, and nothing behind it.
    MissingShown,
    /// `show`, and neither `services` nor `sessions` begins with the word behind it.
    UnknownShown,
    /// `show`, and both do.
    AmbiguousShown,
    /// `connect`, and nothing behind it.
    MissingService,
    /// `connect`, and no service that is known begins with the word behind it.
    UnknownService,
    /// `connect`, and more than one does, none of which it is whole.
    AmbiguousService,
    /// It has more words than its command.
    Extra,
}

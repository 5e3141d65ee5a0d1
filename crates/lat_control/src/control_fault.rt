//! Why a control socket isn't there.

ghost use Rattle.std.specs.Prelude.{◌≡◌, ◌≢◌, ◌↔◌};
ghost use Rattle.std.specs.declared.io.ErrorKind.{ErrorKind};

use std::io::ErrorKind;

/// Why a control socket wasn't opened.
#[derive(Clone, Copy, Debug, PartialEq, Eq)]
pub enum ControlFault {
    /// Somebody listens there.
    InUse,
    /// What is there is no socket. It stays as it is.
    NoSocket,
    /// The system doesn't allow it.
    Denied,
    /// The folder isn't there.
    NoFolder,
    /// The path has a byte 0, or more bytes than the address of a socket.
    BadPath,
    /// No memory was found for it.
    Memory,
    /// Anything else.
    Other,
}

impl ControlFault {
    /// What an operator is told.
    pub fn words(self) -> &'static str {
        match self {
            ControlFault::InUse => "somebody listens there",
            ControlFault::NoSocket => "not a socket",
            ControlFault::Denied => "permission denied",
            ControlFault::NoFolder => "no such folder",
            ControlFault::BadPath => "not a path of a socket",
            ControlFault::Memory => "no memory",
            ControlFault::Other => "can't be opened",
        }
    }
}

/// Why a control socket wasn't opened, by the system's error.
pub fn control_fault_of(kind: ErrorKind) -> ControlFault
    ensures denied { result ≡ ControlFault.Denied ↔ kind ≡ ErrorKind.PermissionDenied }
    ensures folder { result ≡ ControlFault.NoFolder ↔ kind ≡ ErrorKind.NotFound }
    ensures path { result ≡ ControlFault.BadPath ↔ kind ≡ ErrorKind.InvalidInput }
    ensures socket { result ≢ ControlFault.NoSocket }
{
    match kind {
        ErrorKind::PermissionDenied => ControlFault::Denied,
        ErrorKind::NotFound => ControlFault::NoFolder,
        ErrorKind::InvalidInput => ControlFault::BadPath,
        ErrorKind::AlreadyExists | ErrorKind::AddrInUse => ControlFault::InUse,
        ErrorKind::OutOfMemory => ControlFault::Memory,
        _ => ControlFault::Other,
    }
}

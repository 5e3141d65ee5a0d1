//! A control socket: a Unix socket at a path.

ghost use Rattle.std.specs.Prelude.{◌≡◌, IfOk, IfSome};
ghost use Rattle.lat_control.specs.Clients.{IsFresh};

use crate::client::{Client, Clients};
use crate::control_fault::{ControlFault, control_fault_of};
use crate::unix_client::{UnixClient, is_quiet, more};
use lat_outside::Failed;
use std::alloc::{AllocError, Global};
use std::fs::{self, DirBuilder, Files, Permissions};
use std::io::{self, ErrorKind};
use std::net::Net;
use std::os::unix::fs::{DirBuilderExt, FileTypeExt, PermissionsExt};
use std::os::unix::net::{UnixListener, UnixStream};

/// Who made it may read and write it, nobody else.
const OWN_FILE: u32 = 0o600;

/// Who made it may look into it, nobody else.
const OWN_FOLDER: u32 = 0o700;

/// A Unix socket at a path. It is listened at until it is closed.
#[derive(Drop)]
pub struct ControlSocket<R: Files + Net + Drop> {
    rt: R,
    path: String,
    listener: Option<UnixListener>,
    faults: u64,
}

// What lies at a path.
#[derive(Clone, Copy, PartialEq, Eq)]
enum Found {
    Nothing,
    // a socket that nobody listens at
    Left,
}

// The text with these behind it.
fn longer(alloc: Global, text: &str, more: &str) -> Result<String, AllocError> {
    let mut longer = String::from_str(alloc, text)?;
    longer.push_str(more)?;
    Ok(longer)
}

// Whether somebody listens at this socket.
fn is_heard<R: Net>(rt: &R, path: &String) -> io::Result<bool> {
    match UnixStream::connect(rt, path.as_str()) {
        Ok(_) => Ok(true),
        Err(error) if error.kind() == ErrorKind::ConnectionRefused => Ok(false),
        Err(error) => Err(error),
    }
}

// What lies at the path, where a socket may be put there.
fn look<R: Files + Net>(rt: &R, path: &String) -> Result<Found, ControlFault> {
    match fs::symlink_metadata(rt, path.as_str()) {
        Err(error) if error.kind() == ErrorKind::NotFound => Ok(Found::Nothing),
        Err(error) => Err(control_fault_of(error.kind())),
        Ok(found) if !found.file_type().is_socket() => Err(ControlFault::NoSocket),
        Ok(_) => match is_heard(rt, path) {
            Ok(false) => Ok(Found::Left),
            Ok(true) => Err(ControlFault::InUse),
            Err(error) => Err(control_fault_of(error.kind())),
        },
    }
}

// Makes a folder that is open to nobody else. One that a killed daemon left is taken away before.
fn make_folder<R: Files>(rt: &R, folder: &String, socket: &String) -> io::Result<()> {
    let mut builder = DirBuilder::new();
    builder.mode(OWN_FOLDER);
    match builder.create(rt, folder.as_str()) {
        Err(error) if error.kind() == ErrorKind::AlreadyExists => {
            let _ = fs::remove_file(rt, socket.as_str());
            fs::remove_dir(rt, folder.as_str())?;
            builder.create(rt, folder.as_str())
        }
        made => made,
    }
}

// Listens at a socket that nobody else can reach yet.
fn listen<R: Files + Net>(rt: &R, socket: &String) -> io::Result<UnixListener> {
    let listener = UnixListener::bind(rt, socket.as_str())?;
    fs::set_permissions(rt, socket.as_str(), Permissions::from_mode(OWN_FILE))?;
    listener.set_nonblocking(true)?;
    Ok(listener)
}

// Gives the socket its path, at which nothing lies now but what was found there.
fn put<R: Files>(rt: &R, socket: &String, path: &String, found: Found) -> io::Result<()> {
    if found == Found::Left {
        fs::remove_file(rt, path.as_str())?;
    }
    fs::hard_link(rt, socket.as_str(), path.as_str())
}

// Listens at the path, by a socket in a folder of its own.
fn open_by<R: Files + Net>(
    rt: &R,
    path: &String,
    folder: &String,
    socket: &String,
    found: Found,
) -> io::Result<UnixListener> {
    make_folder(rt, folder, socket)?;
    let listener = listen(rt, socket);
    let put = match &listener {
        Ok(_) => put(rt, socket, path, found),
        Err(_) => Ok(()),
    };
    let _ = fs::remove_file(rt, socket.as_str());
    let _ = fs::remove_dir(rt, folder.as_str());
    put?;
    listener
}

impl<R: Files + Net + Drop> ControlSocket<R> {
    /// Listens at the path from now on, with a socket of mode 0600. It is made in a folder that is open to nobody else, `PATH.new`,
    /// and has its mode before it gets its path, so no one else can ever connect. A socket file at which nobody listens is replaced;
    /// whatever else lies at the path stays as it is. `InUse` where somebody listens there, `NoSocket` where no socket lies there.
    /// Its count of faults begins at 0.
    pub fn open(rt: R, alloc: Global, path: String) -> Result<ControlSocket<R>, ControlFault>
        ensures { IfOk result (λ socket. ⟦<ControlSocket<R> as Clients>⟧.faults socket ≡ 0) }
    {
        let found = look(&rt, &path)?;
        let Ok(folder) = longer(alloc, path.as_str(), ".new") else {
            return Err(ControlFault::Memory);
        };
        let Ok(socket) = longer(alloc, folder.as_str(), "/s") else {
            return Err(ControlFault::Memory);
        };
        match open_by(&rt, &path, &folder, &socket, found) {
            Ok(listener) => Ok(ControlSocket {
                rt,
                path,
                listener: Some(listener),
                faults: 0,
            }),
            Err(error) => Err(control_fault_of(error.kind())),
        }
    }
}

// Who knocks.
fn knock(listener: &UnixListener) -> io::Result<Option<UnixClient>>
    ensures { IfOk result (λ comer. IfSome comer (λ client.
        IsFresh (⟦<UnixClient as Client>⟧.given client) (⟦<UnixClient as Client>⟧.written client))) }
{
    match listener.accept() {
        Ok((stream, _)) => Ok(Some(UnixClient::make(stream)?)),
        Err(error) if is_quiet(error.kind()) => Ok(None),
        Err(error) => Err(error),
    }
}

impl<R: Files + Net + Drop> Clients for ControlSocket<R> {
    type Client = UnixClient;

    ghost faults = { λ socket. socket.faults };

    fn accept(&mut self) -> Result<Option<UnixClient>, Failed> {
        let Some(listener) = &self.listener else {
            return Ok(None);
        };
        let Ok(comer) = knock(listener) else {
            more(&mut self.faults);
            return Err(Failed);
        };
        Ok(comer)
    }

    fn hang_up(&mut self, _client: UnixClient) {}

    fn close(&mut self) {
        if self.listener.take().is_some()
            && fs::remove_file(&self.rt, self.path.as_str()).is_err()
        {
            more(&mut self.faults);
        }
    }
}

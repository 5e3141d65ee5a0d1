//! What is kept of a request.

ghost use Rattle.std.specs.Prelude.{◌≡◌};
ghost use Rattle.lat_machines.specs.values.Addresses.{address};
ghost use Rattle.lat_queue.specs.Histories.{key_shown};
ghost use Rattle.lat_queue.specs.Looks.{waiter_look};

use crate::key::Key;
use lat_base::{Addr, Name, WaiterLook};

/// How a request stands.
#[derive(Clone, Copy)]
pub(crate) enum Standing {
    /// It waits in the line of the service at this place of the list of services.
    Waits(u8),
    /// It was granted, with the grant of this number.
    Granted(u32),
    /// The session of the grant of this number is over.
    Done(u32),
    /// It was cancelled while it waited.
    Cancelled,
    /// It found as many waiting as may wait.
    QueueFull,
    /// It named a service that is not offered.
    NoService,
}

impl Standing {
    ghost use Rattle.lat_queue.specs.Tables.{grant_info};

    /// The number of its grant.
    pub(crate) fn grant(self) -> Option<u32>
        ensures { result ≡ grant_info self }
    {
        match self {
            Standing::Granted(grant) | Standing::Done(grant) => Some(grant),
            _ => None,
        }
    }
}

/// A request: from where it first came, the service that it named then, and how it stands.
#[derive(Clone, Copy)]
pub(crate) struct Entry {
    pub(crate) from: Addr,
    pub(crate) service: Name,
    pub(crate) standing: Standing,
}

/// One that waits.
#[derive(Clone, Copy)]
pub(crate) struct Waiter {
    pub(crate) key: Key,
    pub(crate) from: Addr,
}

impl Waiter {
    ghost use Rattle.lat_queue.specs.Looks.{waiter_told};

    /// What is told of it.
    pub(crate) fn look(&self) -> WaiterLook
        ensures { result ≡ waiter_told self.now }
    {
        look_of(&self.key, self.from)
    }
}

// What is told of a request of this key that came from there.
fn look_of(key: &Key, from: Addr) -> WaiterLook
    ensures { result ≡ waiter_look (key_shown key.now) (address from.0) }
{
    WaiterLook {
        node: key.node,
        from,
        request: key.request,
    }
}

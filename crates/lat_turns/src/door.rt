//! What a line is for.

ghost use Rattle.std.specs.Prelude.{◌≡◌};
ghost use Rattle.lat_history.specs.History.{state_of};
ghost use Rattle.lat_turns.specs.Doors.{device_of, is_wanted, look_in, owner_of, port_at, port_for, port_if, serves, service_of};

use crate::kept::Sessions;
use lat_base::{Core, Correspondent, Name};
use lat_history::Cell;
use lat_mind::{Look, Move, Owner};
use lat_outside::Tx;
use std::marker::Model;
use std::sync::ledger::Ledger;

/// A device, which is dialled at its port on the loopback address.
#[derive(Clone, Copy)]
pub struct Device {
    /// The service that it is for.
    pub service: Name,
    pub port: u16,
}

/// What a line is for. A session whose service has a device is the device's; each other one is for whoever is at the line's port.
#[derive(Drop)]
pub struct Door<'a> {
    service: Option<Name>,
    devices: &'a [Device],
    offers: Option<Name>,
    sessions: Sessions,
}

impl<'a> Model for Door<'a> {
    ghost use Rattle.lat_turns.specs.Doors.{DoorView};

    ghost Value = { DoorView };

    ghost view = { λ a. record {
      service = a.service;
      devices = a.devices.now;
      offers = a.offers;
      sessions = a.sessions;
    } };
}

// Whether it is for this service, without regard to case.
fn serves(device: &Device, service: &Name) -> bool
    ensures { result ≡ serves service.now device.now }
{
    service.folded() == device.service.folded()
}

// The first device for a service.
fn device_of(devices: &[Device], service: &Name) -> Option<Device>
    ensures { result ≡ device_of devices.now service.now }
{
    devices
        .iter()
        .find(|device| serves(device, service))
        .copied()
}

// The port of the first device for a service.
fn port_for(devices: &[Device], service: &Name) -> Option<u16>
    ensures { result ≡ port_for devices.now service.now }
{
    match device_of(devices, service) {
        Some(device) => Some(device.port),
        None => None,
    }
}

fn port_if(devices: &[Device], service: Option<Name>) -> Option<u16>
    ensures { result ≡ port_if devices.now service }
{
    match service {
        Some(service) => port_for(devices, &service),
        None => None,
    }
}

fn service_of(who: Option<Correspondent>) -> Option<Name>
    ensures { result ≡ service_of who }
{
    match who {
        Some(who) => Some(who.service),
        None => None,
    }
}

impl<'a> Door<'a> {
    /// A line that connects its callers to this service, if to any; whose sessions for the services of these devices are
    /// theirs; that offers this service, if any; and whose caller has one session at a time, or switches between several.
    pub fn new(
        service: Option<Name>,
        devices: &'a [Device],
        offers: Option<Name>,
        sessions: Sessions,
    ) -> Door<'a>
        ensures { result ≡ record {
          service = service;
          devices = devices.entry.now;
          offers = offers;
          sessions = sessions;
        } }
    {
        Door {
            service,
            devices,
            offers,
            sessions,
        }
    }

    /// The service that it connects its callers to.
    pub fn service(&self) -> Option<Name>
        ensures { result ≡ self.now.service }
    {
        self.service
    }

    /// How many sessions its caller may have at a time.
    pub fn sessions(&self) -> Sessions
        ensures { result ≡ self.now.sessions }
    {
        self.sessions
    }

    // Whose the newest session is.
    fn owner(&self, who: Option<Correspondent>) -> Owner
        ensures { result ≡ owner_of self.now.devices who }
    {
        if port_if(self.devices, service_of(who)).is_some() {
            Owner::Device
        } else {
            Owner::Port
        }
    }

    // Whether somebody waits for the service that it offers.
    fn is_wanted<C: Core, T: Tx, E: Ledger, B: Ledger>(&self, cell: &Cell<C, T, E, B>) -> bool
        ensures { result ≡ is_wanted (C.waiter_of (state_of C.opening C.next cell.now)) self.now.offers }
    {
        match self.offers {
            Some(service) => cell.has_waiter(&service),
            None => false,
        }
    }

    /// Which port is dialled of such a move.
    pub fn port_at(&self, go: Move, who: Option<Correspondent>) -> Option<u16>
        ensures { result ≡ port_at self.now who go }
    {
        match go {
            Move::Dial => port_if(self.devices, service_of(who)),
            Move::Attach => port_if(self.devices, self.offers),
            _ => None,
        }
    }

    /// How the line looks.
    pub fn look<C: Core, T: Tx, E: Ledger, B: Ledger>(
        &self,
        cell: &Cell<C, T, E, B>,
        line: u8,
    ) -> Look
        ensures { result ≡ look_in C.look_of C.correspondent_of C.waiter_of C.moment_of self.now
            (state_of C.opening C.next cell.now) cell.now.stopping line }
    {
        Look {
            line: cell.line_look(line),
            owner: self.owner(cell.correspondent(line)),
            wanted: self.is_wanted(cell),
            stopping: cell.stopping(),
            moment: cell.moment(),
        }
    }
}

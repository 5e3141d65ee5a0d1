//! All clients that are served.

ghost use Rattle.std.specs.Prelude.{◌≡◌, ℕ, ◌≤◌, [], ◌++◌, length, take, codes};
ghost use Rattle.lat_control.specs.Clients.{IsFresh};

use crate::answers::Answers;
use crate::client::{Client, Clients};
use crate::seat::Seat;
use std::alloc::Global;
use std::marker::Model;

/// The most clients at a time.
pub const MOST_CLIENTS: usize = 8;

const BUSY_TEXT: &[u8] = b"busy\n\n";

/// The clients that are served, eight at most.
#[derive(Drop)]
pub struct Desk<C: Client, A: Answers> {
    seats: Vec<Seat<C, A>>,
}

impl<C: Client, A: Answers> Model for Desk<C, A> {
    ghost use Rattle.std.specs.Prelude.{List, ◌≤◌, length};
    ghost use Rattle.lat_control.specs.Seats.{SeatView};

    ghost Value = { List (SeatView C) };

    ghost view = { λ a. a.seats.items };

    ghost invariant = { λ a. length a.seats.items ≤ 8 };
}

// Tells a ninth client so, as far as it takes that in one write.
fn tell_busy<C: Client>(client: &mut C)
    ensures written { (n : ℕ) × (C.written client.new ≡ C.written client.old ++ take n (codes "busy\n\n")) }
    ensures given { C.given client.new ≡ C.given client.old }
{
    let _ = client.write(BUSY_TEXT);
}

impl<C: Client, A: Answers> Desk<C, A> {
    /// Nobody is served.
    pub fn make(alloc: Global) -> Desk<C, A>
        ensures { result ≡ [] }
    {
        Desk {
            seats: Vec::new(alloc),
        }
    }

    // Seats who has come, where a seat is free; a ninth is told that none is, and hung up. For want of memory it is hung up too.
    fn seat<S: Clients<Client = C>>(&mut self, alloc: Global, clients: &mut S, client: C)
        requires { IsFresh (C.given client) (C.written client) }
        ensures full { length self.old ≡ 8 → self.new ≡ self.old }
    {
        if self.seats.len() >= MOST_CLIENTS {
            let mut client = client;
            tell_busy(&mut client);
            clients.hang_up(client);
            return;
        }
        let _ = self.seats.push(Seat::make(alloc, client));
    }

    /// Takes who knocks, and tells whether somebody did.
    pub fn admit<S: Clients<Client = C>>(&mut self, alloc: Global, clients: &mut S) -> bool
        ensures full { length self.old ≡ 8 → self.new ≡ self.old }
    {
        let Ok(Some(client)) = clients.accept() else {
            return false;
        };
        self.seat(alloc, clients, client);
        true
    }

    // The turn of the first client, which is the last one then. It tells whether it moved a byte, or went.
    fn serve_first<S: Clients<Client = C>>(
        &mut self,
        alloc: Global,
        clients: &mut S,
        answers: &mut A,
    ) -> bool
        ensures { length self.new ≤ length self.old }
    {
        if self.seats.is_empty() {
            return false;
        }
        match self.seats.remove(0).turn(alloc, answers) {
            Ok(seat) => {
                let moved = seat.moved();
                let _ = self.seats.push(seat);
                moved
            }
            Err(gone) => {
                clients.hang_up(gone.client);
                true
            }
        }
    }

    /// One turn of each client. It tells whether one of them moved a byte, or went.
    pub fn serve<S: Clients<Client = C>>(
        &mut self,
        alloc: Global,
        clients: &mut S,
        answers: &mut A,
    ) -> bool
        ensures { length self.new ≤ length self.old }
    {
        let mut moved = false;
        for _ in 0..self.seats.len() {
            if self.serve_first(alloc, clients, answers) {
                moved = true;
            }
        }
        moved
    }

    /// The last write to each client, behind which it is hung up.
    pub fn close<S: Clients<Client = C>>(self, clients: &mut S) {
        let Desk { seats } = self;
        for seat in seats {
            clients.hang_up(seat.leave());
        }
    }
}

//! The worker of a control socket.

use crate::answers::Answers;
use crate::client::Clients;
use crate::desk::Desk;
use lat_outside::Clock;
use std::alloc::Global;
use std::sync::Wait;

/// How long the worker pauses where nothing moved, in milliseconds.
const PAUSE_MS: u64 = 20;

/// Whether a daemon has ended.
pub trait Ending: Drop {
    /// Whether it has. It may wait for a lock, and not for long.
    fn is_over(&mut self) -> bool;
}

/// Serves the clients until the daemon has ended: who knocks is taken, and each client has its turn, one after another; where none
/// of them moved a byte, a pause of 20 ms follows. At the end each client has one more write, all are hung up, and nobody can come
/// any more. It may wait, and its return isn't promised.
pub fn control_worker<S: Clients, A: Answers, K: Clock, E: Ending, R: Wait>(
    rt: &R,
    alloc: Global,
    clients: &mut S,
    answers: &mut A,
    clock: K,
    ending: E,
) {
    let mut clock = clock;
    let mut ending = ending;
    let mut desk = Desk::make(alloc);
    for _ in rt.forever() {
        let is_over = ending.is_over();
        let came = desk.admit(alloc, clients);
        let moved = desk.serve(alloc, clients, answers);
        if is_over {
            desk.close(clients);
            clients.close();
            return;
        }
        if !came && !moved {
            clock.pause(PAUSE_MS);
        }
    }
    unreachable!()
}

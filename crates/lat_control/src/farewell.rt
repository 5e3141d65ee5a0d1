//! Why a client goes.

ghost use Rattle.std.specs.Prelude.{◌≡◌, length};

use crate::client::Client;
use crate::session::Session;
use lat_base::Memory;

/// Why a client goes.
#[derive(Clone, Copy, Debug, PartialEq, Eq)]
pub enum Farewell {
    /// It gives no more, and all its lines are answered.
    Ended,
    /// A read or a write failed.
    Failed,
    /// It is owed more than 1 MiB.
    Full,
    /// No memory was found for an answer.
    Memory,
}

impl From<Memory> for Farewell {
    ghost use Rattle.std.specs.Prelude.{◌≡◌};
    ghost use Rattle.lat_control.specs.declared.farewell.Farewell.TheVariants as whys;

    ghost from_gives = { λ _ e. e ≡ whys.Memory };

    fn from(_e: Memory) -> Farewell {
        Farewell::Memory
    }
}

/// A client that goes, why, and how many bytes it was still owed.
#[derive(Drop)]
pub struct Gone<C: Client> {
    pub client: C,
    pub why: Farewell,
    pub owed: usize,
}

impl<C: Client> Gone<C> {
    /// This client goes, whose session was so.
    pub fn new(client: C, why: Farewell, session: &Session) -> Gone<C>
        ensures { (result.client ≡ client) × (result.why ≡ why) × (result.owed ≡ length session.now.owed) }
    {
        Gone {
            client,
            why,
            owed: session.owed().len(),
        }
    }
}

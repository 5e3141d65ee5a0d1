//! A carrier of the tests' own.

ghost use Rattle.std.specs.Prelude.{None};

use lat_base::Addr;
use lat_outside::{Failed, Tx};
use std::sync::atomic::{AtomicU64, Ordering};

/// Keeps the last bytes of the frames tried, as digits of base 256, and fails at the send of this number.
#[derive(Drop)]
pub struct FailingTx<'a> {
    pub tried: &'a AtomicU64,
    pub fails: u64,
    pub sends: u64,
    pub faults: u64,
}

impl Tx for FailingTx<'_> {
    ghost tried = { λ t. None };

    ghost faults = { λ t. t.faults };

    fn send(&mut self, _to: Addr, payload: &[u8]) -> Result<(), Failed> {
        if let [.., byte] = payload {
            let before = self.tried.load(Ordering::SeqCst);
            self.tried
                .store(before.wrapping_mul(256) | *byte as u64, Ordering::SeqCst);
        }
        self.sends = self.sends.saturating_add(1);
        if self.sends == self.fails {
            self.faults = self.faults.saturating_add(1);
            return Err(Failed);
        }
        Ok(())
    }
}

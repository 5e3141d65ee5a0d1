//! Clients in memory, who come one after another.

ghost use Rattle.std.specs.Prelude.{◌≡◌, ◌++◌, ◌∷◌, OnOk};

use crate::client::Clients;
use crate::memory_client::{MemClient, MemComer};
use lat_outside::Failed;
use std::alloc::Global;

/// A socket whose clients are given by a list: one of them comes at each accept, but at those that are to fail.
#[derive(Drop)]
pub struct MemClients<'a> {
    alloc: Global,
    coming: &'a [MemComer],
    over: Vec<MemClient<'a>>,
    calls: u64,
    failing: &'a [u64],
    faults: u64,
    closed: bool,
}

impl<'a> MemClients<'a> {
    /// These clients come, the first one first. The accepts in `failing`, counted from 1, fail. Its count of faults
    /// begins at 0.
    pub fn new(alloc: Global, coming: &'a [MemComer], failing: &'a [u64]) -> MemClients<'a>
        ensures faults { ⟦<MemClients<'a> as Clients>⟧.faults result ≡ 0 }
    {
        MemClients {
            alloc,
            coming,
            over: Vec::new(alloc),
            calls: 0,
            failing,
            faults: 0,
            closed: false,
        }
    }

    /// Who was hung up, the first one first, but those for whom no memory was found.
    pub fn over(&self) -> &[MemClient<'a>]
        ensures { result.now ≡ self.now.over.items }
    {
        self.over.as_slice()
    }

    /// Whether nobody can come any more.
    pub fn is_closed(&self) -> bool
        ensures { result ≡ self.now.closed }
    {
        self.closed
    }
}

impl<'a> Clients for MemClients<'a> {
    type Client = MemClient<'a>;

    ghost faults = { λ c. c.faults };

    fn accept(&mut self) -> Result<Option<MemClient<'a>>, Failed> {
        self.calls = self.calls.saturating_add(1);
        if self.failing.contains(&self.calls) {
            self.faults = self.faults.saturating_add(1);
            return Err(Failed);
        }
        if self.closed {
            return Ok(None);
        }
        let Some((comer, behind)) = self.coming.split_first() else {
            return Ok(None);
        };
        self.coming = behind;
        Ok(Some(MemClient::new(self.alloc, comer)))
    }

    fn hang_up(&mut self, client: MemClient<'a>) {
        let _ = self.over.push(client);
    }

    fn close(&mut self) {
        self.closed = true;
    }
}

//! Parameters.

ghost use Rattle.std.specs.Prelude.{◌≡◌, [], ◌∷◌, ◌++◌, OnOk, OnErr};

use lat_base::{Bytes, Memory};
use std::alloc::Global;
use std::marker::Model;

/// A parameter: a code from 1 to 255, and at most 255 bytes.
pub struct Param {
    pub code: u8,
    pub bytes: Bytes,
}

impl Drop for Param {
    fn drop(self) {
        let Self { code, bytes } = self;
    }
}

/// A list of parameters. Contracts see the list.
pub struct Params {
    entries: Vec<Param>,
}

impl Drop for Params {
    fn drop(self) {
        let Self { entries } = self;
    }
}

impl Model for Params {
    ghost use Rattle.std.specs.Prelude.{List};
    ghost use Rattle.lat_fields.specs.declared.params.Param.{Param};

    ghost Value = { List Param };

    ghost view = { λ a. a.entries.items };
}

impl Params {
    /// No parameter.
    pub fn new(alloc: Global) -> Params
        ensures { result ≡ [] }
    {
        Params {
            entries: Vec::new(alloc),
        }
    }

    /// Adds a parameter at the end. Takes memory for it; without it nothing has changed.
    pub fn push(&mut self, entry: Param) -> Result<(), Memory>
        ensures ok { OnOk result (self.new ≡ self.old ++ entry ∷ []) }
        ensures err { OnErr result (self.new ≡ self.old) }
    {
        self.entries.push(entry)?;
        Ok(())
    }

    /// The parameters, first to last.
    pub fn as_slice(&self) -> &[Param]
        ensures { result.now ≡ self.now }
    {
        self.entries.as_slice()
    }
}

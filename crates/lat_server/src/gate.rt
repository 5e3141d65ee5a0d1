//! Which lines of a server may grant.

ghost use Rattle.std.specs.Prelude.{◌≡◌, ◌≤◌, ℕ, cond, nat_eq};
ghost use Rattle.lat_server.specs.Gates.{open_gate, is_open, is_ready};

/// Whether a server is halted, and which of its lines are ready. A halted server grants nothing, nor does a line that isn't
/// ready. See "Halting" and "Lines that are ready" in docs/PROTOCOL.md.
#[derive(Clone, Copy)]
pub struct Gate {
    pub halted: bool,
    /// By the number of the line, from 1 on.
    pub ready: [bool; 33],
}

impl Gate {
    /// Of a server that isn't halted, and whose lines are all ready.
    pub fn open() -> Gate
        ensures { result ≡ open_gate }
    {
        Gate {
            halted: false,
            ready: [true; 33],
        }
    }

    /// Whether a line may grant. A server has 32 lines at most.
    pub fn is_open(&self, line: u8) -> bool
        requires { line ≤ 32 }
        ensures { result ≡ is_open self.now line }
    {
        !self.halted && self.ready[line as usize]
    }

    /// From now on a line is ready, or isn't.
    pub fn set(&mut self, line: u8, ready: bool)
        requires { line ≤ 32 }
        ensures ready { (x : ℕ) → is_ready self.new x ≡ cond (nat_eq x line) ready (is_ready self.old x) }
        ensures halted { self.new.halted ≡ self.old.halted }
    {
        self.ready[line as usize] = ready;
    }
}

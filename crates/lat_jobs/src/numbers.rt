//! The numbers of a node's requests.

ghost use Rattle.std.specs.Prelude.{◌≡◌, ◌+◌, ◌-◌};
ghost use Rattle.lat_jobs.specs.Numbers.{number_drawn, numbers_after};

/// The numbers of a node's requests, from 1 on, each drawn once. A node draws all its numbers from one of these, so it uses none
/// twice under one incarnation.
pub struct Numbers {
    /// The last one that was drawn, 0 where none was.
    drawn: u16,
}

impl Drop for Numbers {
    fn drop(self) {
        let Self { drawn: _ } = self;
    }
}

impl Numbers {
    /// Of these none was drawn.
    pub fn make() -> Numbers
        ensures { result.drawn ≡ 0 }
    {
        Numbers { drawn: 0 }
    }

    /// Draws the next number. `None` exactly where all 65,535 were drawn.
    pub fn draw(&mut self) -> Option<u16>
        ensures number { result ≡ number_drawn self.old.drawn }
        ensures after { self.new.drawn ≡ numbers_after self.old.drawn }
    {
        if self.drawn == u16::MAX {
            return None;
        }
        self.drawn += 1;
        Some(self.drawn)
    }

    /// How many numbers are left.
    pub fn left(&self) -> u16
        ensures { result + self.now.drawn ≡ 65535 }
    {
        u16::MAX - self.drawn
    }
}

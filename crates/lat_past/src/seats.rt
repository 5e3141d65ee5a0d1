//! What is counted of each seat.

ghost use Rattle.std.specs.Prelude.{◌≡◌, ◌+◌, ◌<◌, ◌^◌, slice_index, slice_set, replicate};

/// What a seat did: how many events are its own, how many bytes its puts took, and how many items it took.
#[derive(Clone, Copy, Debug, PartialEq, Eq)]
pub struct SeatTotals {
    pub events: u64,
    pub bytes: u64,
    pub items: u64,
}

/// What each seat did.
#[derive(Drop)]
pub struct SeatCounts {
    pub events: [u64; 256],
    pub bytes: [u64; 256],
    pub items: [u64; 256],
}

impl SeatCounts {
    /// Nothing is counted.
    pub fn new() -> SeatCounts
        ensures { (result.events ≡ replicate 256 0) × (result.bytes ≡ replicate 256 0)
            × (result.items ≡ replicate 256 0) }
    {
        SeatCounts {
            events: [0; 256],
            bytes: [0; 256],
            items: [0; 256],
        }
    }

    /// What a seat did.
    pub fn of(&self, seat: u8) -> SeatTotals
        ensures events { result.events ≡ slice_index self.now.events seat }
        ensures bytes { result.bytes ≡ slice_index self.now.bytes seat }
        ensures items { result.items ≡ slice_index self.now.items seat }
    {
        SeatTotals {
            events: self.events[seat as usize],
            bytes: self.bytes[seat as usize],
            items: self.items[seat as usize],
        }
    }

    /// One event more of this seat, by which so many bytes were put and so many items were taken.
    pub fn add(&mut self, seat: u8, put: u16, took: u16)
        requires events { slice_index self.old.events seat + 1 < 2 ^ 64 }
        requires bytes { slice_index self.old.bytes seat + put < 2 ^ 64 }
        requires items { slice_index self.old.items seat + took < 2 ^ 64 }
        ensures events { self.new.events ≡ slice_set self.old.events seat (slice_index self.old.events seat + 1) }
        ensures bytes { self.new.bytes ≡ slice_set self.old.bytes seat (slice_index self.old.bytes seat + put) }
        ensures items { self.new.items ≡ slice_set self.old.items seat (slice_index self.old.items seat + took) }
    {
        self.events[seat as usize] += 1;
        self.bytes[seat as usize] += put as u64;
        self.items[seat as usize] += took as u64;
    }
}

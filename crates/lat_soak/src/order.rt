//! The numbers of the entries that are kept.

use lat_base::Event;
use lat_past::Entry;

/// How many entries were looked at, and of those that have numbers the first, the last, and one that isn't the next behind the one
/// before it.
#[derive(Drop)]
pub struct Order {
    pub kept: u64,
    pub first: Option<u64>,
    pub last: Option<u64>,
    pub astray: Option<u64>,
}

// The number of an entry that has one as its moment.
fn number_of(entry: &Entry) -> Option<u64> {
    match &entry.event {
        Event::Time { now } | Event::Heard { now, .. } => Some(*now),
        _ => None,
    }
}

impl Order {
    /// No entry yet.
    pub fn new() -> Order {
        Order {
            kept: 0,
            first: None,
            last: None,
            astray: None,
        }
    }

    // The next number.
    fn count(&mut self, number: u64) {
        match self.last {
            Some(last) => if last.checked_add(1) != Some(number) {
                self.astray = Some(number);
            },
            None => self.first = Some(number),
        }
        self.last = Some(number);
    }

    /// The next entries.
    pub fn look(&mut self, entries: &[Entry]) {
        for entry in entries {
            self.kept = self.kept.saturating_add(1);
            if let Some(number) = number_of(entry) {
                self.count(number);
            }
        }
    }
}

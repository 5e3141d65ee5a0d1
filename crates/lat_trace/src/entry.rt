//! What happened at an event.

use lat_base::Answer;

/// What happened at an event of a schedule.
#[derive(Drop)]
pub struct Entry {
    /// The moment of the schedule behind the event.
    pub moment: u64,
    /// What the end answered that was told it. `None` where a frame came to an end that it isn't for.
    pub answer: Option<Answer>,
    /// The number of the first frame that it made, and that of the first frame that was made behind it.
    pub first: u64,
    pub behind: u64,
}

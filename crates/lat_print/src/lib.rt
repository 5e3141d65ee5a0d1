//! The words of what a core answers, and texts with a margin. `docs/FORMATS.md`, "Answers", has the words.
#![tactic(auto)]

mod answer;
mod heard;
mod indent;
mod items;
mod kept;

pub use answer::answer_onto;
pub use heard::heard_onto;
pub use indent::indented_onto;
pub use items::items_onto;
pub use kept::kept_onto;

//! The picture of a schedule that was played, as SVG: two lines of life, time downwards, an arrow for each delivery, a
//! cross for what was lost, and events with their answers at the sides. `docs/FORMATS.md`, "Pictures", says what is drawn.
#![tactic(auto)]

mod drawing;
mod escape;
mod events;
mod layout;
mod lines;
mod picture;
mod short;
mod stubs;

pub use drawing::draw;

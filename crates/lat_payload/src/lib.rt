//! Payloads as the machines know them: the frames that notices go out in, and, in definitions and lemmas, what a payload
//! that is heard reads as and which number an address is.
#![tactic(auto)]

mod said;

pub use said::{command_frame, notice_frame, response_frame, solicit_frame, status_frame};

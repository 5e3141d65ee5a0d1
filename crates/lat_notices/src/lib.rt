//! The notices that stand outside circuits: read, tested and written as whole payloads. `docs/FRAMES.md`, part
//! Notices, has their layouts.
#![tactic(auto)]

mod fields;
mod kind;
pub mod laws;
mod measure;
mod notice;
mod read;
mod read_services;
mod services;
mod write;
mod write_services;

pub use kind::NoticeKind;
pub use lat_fields::LayoutFault as FrameFault;
pub use measure::notice_ok;
pub use notice::{Action, Announcement, Command, Notice, Outcome, Response, Solicit, Status};
pub use read::read_notice;
pub use services::{Service, Services};
pub use write::write_notice;

//! Frames.

use lat_base::{Addr, Bytes};

/// A captured frame of the type 60-04.
pub struct Frame {
    /// The seconds of the moment at which it was captured, since 1970-01-01, UTC.
    pub seconds: u32,
    /// The nanoseconds behind them, below 1,000,000,000.
    pub nanos: u32,
    /// The station that it was sent to.
    pub to: Addr,
    /// The station that sent it.
    pub from: Addr,
    /// What stands behind its type.
    pub payload: Bytes,
}

impl Drop for Frame {
    fn drop(self) {
        let Self {
            seconds,
            nanos,
            to,
            from,
            payload,
        } = self;
    }
}

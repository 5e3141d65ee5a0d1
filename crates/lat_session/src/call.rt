//! What a session's user asks of it.

/// What a session's user asks of it, but for a take. After a refusal nothing has changed.
#[derive(Clone, Copy)]
pub enum SessionCall<'a> {
    /// Bytes for the peer. The first ones are taken, as many as there is room for: 4,096 items wait to be framed at most.
    /// `Closed` exactly where the session is neither calling nor live, or was closed.
    Put(&'a [u8]),
    /// A setting for the peer: a flag byte and four characters. `Closed` where a put is, else `Full` exactly where 4,096
    /// items wait to be framed.
    Set([u8; 5]),
    /// An attention with this flag byte, which goes out before all items, in place of one that still waits. `Closed` where a
    /// put is.
    Attend(u8),
    /// The session's end: what it heard is dropped, and its stop goes out behind its items. `Closed` exactly where the
    /// session is free or asked, or was closed.
    Close,
}

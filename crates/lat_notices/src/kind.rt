//! The types of notices.

ghost use Rattle.std.specs.Prelude.{◌≡◌, ◌<◌};
ghost use Rattle.lat_notices.specs.Kinds.{bits_of, kind_of};

/// The type of a notice.
#[derive(Clone, Copy)]
pub enum NoticeKind {
    /// A node tells everyone its services.
    Announcement,
    /// A node asks for a session, or withdraws the request.
    Command,
    /// A server tells what became of a request.
    Status,
    /// A server asks who offers a service.
    Solicit,
    /// A node answers who asked.
    Response,
}

impl NoticeKind {
    /// The type that a number stands for, if it stands for one.
    pub fn from_bits(bits: u8) -> Option<NoticeKind>
        ensures { result ≡ kind_of bits }
    {
        match bits {
            10 => Some(NoticeKind::Announcement),
            12 => Some(NoticeKind::Command),
            13 => Some(NoticeKind::Status),
            14 => Some(NoticeKind::Solicit),
            15 => Some(NoticeKind::Response),
            _ => None,
        }
    }

    /// The number that stands for it, in the six high bits of the first byte.
    pub fn bits(self) -> u8
        ensures value { result ≡ bits_of self }
        ensures six { result < 64 }
    {
        match self {
            NoticeKind::Announcement => 10,
            NoticeKind::Command => 12,
            NoticeKind::Status => 13,
            NoticeKind::Solicit => 14,
            NoticeKind::Response => 15,
        }
    }
}

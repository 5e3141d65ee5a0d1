//! How far message numbers count, and steps between their fields.

ghost use Rattle.std.specs.Prelude.{◌≡◌, ◌+◌, ◌*◌, ◌%◌, ◌<◌, ◌≤◌};
ghost use Rattle.lat_model.specs.numbers.Near.{ahead};
ghost use Rattle.lat_seq.specs.Spans.{half, field};

/// How many bytes a number has in a frame; see "Messages and numbers" in docs/PROTOCOL.md.
#[derive(Clone, Copy)]
pub enum Span {
    /// One byte: numbers count modulo 256.
    Byte,
    /// Two bytes: numbers count modulo 65,536.
    Word,
}

impl Span {
    /// Half of the range of a number field. A field is heard as the whole number that leaves it modulo twice
    /// this and lies from this below the number last known up to this less one above it.
    pub fn half(self) -> u16
        ensures value { result ≡ half self }
        ensures above { 0 < result }
    {
        match self {
            Span::Byte => 128,
            Span::Word => 32_768,
        }
    }

    // How many numbers a field tells apart.
    fn count(self) -> u32
        ensures value { result ≡ 2 * half self }
        ensures bounds { (0 < result) × (result ≤ 65536) }
    {
        match self {
            Span::Byte => 256,
            Span::Word => 65_536,
        }
    }

    // The field of the number that comes `by` steps behind that of the field `from`.
    pub(crate) fn step(self, from: u16, by: u8) -> u16
        ensures value { result ≡ field self (from + by) }
    {
        ((u32::from(from) + u32::from(by)) % self.count()) as u16
    }

    // How far the field `to` lies ahead of the field `from`.
    pub(crate) fn distance(self, from: u16, to: u16) -> u16
        requires { from < 2 * half self }
        ensures { result ≡ ahead to from (half self) }
    {
        let count = self.count();
        ((u32::from(to) + (count - u32::from(from))) % count) as u16
    }
}

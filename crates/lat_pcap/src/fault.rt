//! What is wrong with a file.

ghost use Rattle.std.specs.Prelude.{◌≡◌};
ghost use Rattle.lat_pcap.specs.PartWords.{part_word};

/// A part of a file. `docs/FORMATS.md`, "Pcap files", has them all.
#[derive(Clone, Copy)]
pub enum Part {
    /// The file ends before its header does.
    Header,
    /// The first four bytes are none of the four known numbers.
    Magic,
    /// The version isn't 2.4.
    Version,
    /// The frames aren't those of Ethernet.
    LinkType,
    /// The file ends before a record's header does.
    RecordHeader,
    /// The fraction of a second is a second or more.
    Fraction,
    /// More than 262,144 bytes are said to be included.
    IncludedLength,
    /// The file ends before the bytes that are included.
    Data,
}

/// The first part of a file that is wrong, and the place of its first byte in the file.
#[derive(Clone, Copy)]
pub struct Wrong {
    pub part: Part,
    pub at: usize,
}

impl Part {
    /// The word that is printed for it.
    pub fn word(self) -> &'static str
        ensures { result.now ≡ part_word self }
    {
        match self {
            Part::Header => "header",
            Part::Magic => "magic",
            Part::Version => "version",
            Part::LinkType => "link-type",
            Part::RecordHeader => "record-header",
            Part::Fraction => "fraction",
            Part::IncludedLength => "included-length",
            Part::Data => "data",
        }
    }
}

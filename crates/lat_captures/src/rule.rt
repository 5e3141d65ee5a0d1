//! The rules on the entries of a capture.

ghost use Rattle.std.specs.Prelude.{◌≡◌};
ghost use Rattle.lat_captures.specs.Rules.{rule_shown, rule_text};

/// A rule that an entry may break, in the order in which they are tested. `docs/MODEL.md`, "Captures", says what each asks for.
#[derive(Clone, Copy)]
pub enum Rule {
    /// The payload is a message or a notice.
    Layout,
    /// A RUN has the span of the capture, and the ids and the master bit of its direction.
    Ids,
    /// Its number is that of one of its end's last messages, or of the next.
    Number,
    /// A message that comes again has the slots that it had.
    Slots,
    /// It acknowledges one of the last messages of the other end, and none before one that was acknowledged.
    Acknowledgement,
    /// A new message is at most eight ahead of those that the other end has acknowledged.
    Window,
    /// A new message spends credits that its sessions had.
    Credit,
}

impl Rule {
    /// The word that is printed for it.
    pub fn word(self) -> &'static str
        ensures { result.now ≡ rule_text (rule_shown self) }
    {
        match self {
            Rule::Layout => "layout",
            Rule::Ids => "ids",
            Rule::Number => "number",
            Rule::Slots => "slots",
            Rule::Acknowledgement => "acknowledgement",
            Rule::Window => "window",
            Rule::Credit => "credit",
        }
    }
}

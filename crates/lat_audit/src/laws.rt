//! What holds of captures and their texts. Each function takes nothing and does nothing: its contract is the law.

ghost use Rattle.lat_audit.specs.CaptureText.{WrittenIsRead};
ghost use Rattle.lat_audit.specs.Laws.{CapturesAreLegal};

/// The text that is written of a capture is read as that capture.
pub fn written_is_read()
    ensures { WrittenIsRead }
{}

/// Whatever is captured of a circuit between a server and a node is legal, down to the bytes: of every run of the two machines
/// whose frames are bytes that read as what was said, the audit of the text that is printed of the capture is `legal` with the
/// number of its RUNs, and status 0. Frames may have been lost, repeated or brought out of order, and foreign frames may have come.
pub fn captures_are_legal()
    ensures { CapturesAreLegal }
{}

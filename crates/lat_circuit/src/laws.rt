//! What holds of the payloads of frames. The function takes nothing and does nothing: its contract is the law.

ghost use Rattle.lat_circuit.specs.Laws.{RunsHaveLengths};

/// A RUN has its head of 8 or 10 bytes and its slots, and as a payload at least 46 bytes.
pub fn runs_have_lengths()
    ensures { RunsHaveLengths }
{}

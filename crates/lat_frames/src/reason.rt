//! Why this program ends circuits. A peer may give any number: what is heard stays a number.

ghost use Rattle.std.specs.Prelude.{◌≡◌};
ghost use Rattle.lat_frames.specs.Reasons.{end_bits};

/// Why an end ends a circuit, or turns a START away.
#[derive(Clone, Copy)]
pub enum CircuitEnd {
    /// The peer broke the rules of the circuit.
    Broken,
    /// No session was held for too long.
    NoUse,
    /// This end was halted.
    Halted,
    /// No such circuit lives at this end.
    NoCircuit,
    /// The peer didn't answer for too long.
    NoAnswer,
    /// There is no place for one circuit more.
    NoResources,
}

impl CircuitEnd {
    /// The number that stands for it, in a STOP.
    pub fn bits(self) -> u8
        ensures { result ≡ end_bits self }
    {
        match self {
            CircuitEnd::Broken => 2,
            CircuitEnd::NoUse => 3,
            CircuitEnd::Halted => 3,
            CircuitEnd::NoCircuit => 5,
            CircuitEnd::NoAnswer => 6,
            CircuitEnd::NoResources => 7,
        }
    }
}

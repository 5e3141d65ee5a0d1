//! What is shown of a byte that is typed.

ghost use Rattle.std.specs.Prelude.{◌≡◌, ◌≤◌, ◌+◌, ◌++◌, length, vec_capacity, vec_len};
ghost use Rattle.lat_terminal.specs.Echoes.{shown};

/// What is shown of a byte that is typed: `docs/PROTOCOL.md`, "Typed lines".
#[derive(Clone, Copy)]
pub enum Echo {
    /// Nothing.
    Silent,
    /// The byte itself.
    Typed(u8),
    /// The last byte of the line is wiped out.
    Erased,
    /// The bell.
    Bell,
    /// `^U`, and the prompt on a new line.
    Killed,
    /// `^R`, and prompt and line on a new line.
    Reprinted,
    /// The line has ended: CR LF.
    Ended,
}

/// How many bytes are shown of one at most, beside the prompt: `^R`, CR LF and a line of 128.
pub const MOST_SHOWN: usize = 132;

fn push_all(bytes: &[u8], out: &mut Vec<u8>)
    requires { vec_len out.now + length bytes.now ≤ vec_capacity out.now }
    ensures bytes { out.new.items ≡ out.old.items ++ bytes.now }
    ensures len { vec_len out.new ≡ vec_len out.old + length bytes.now }
    ensures room { vec_capacity out.new ≡ vec_capacity out.old }
{
    for byte in bytes {
        out.push_reserved(*byte);
    }
}

impl Echo {
    /// Puts what is shown behind what `out` has, at this line.
    pub(crate) fn show(self, prompt: &[u8], line: &[u8], out: &mut Vec<u8>)
        requires room { vec_len out.now + (length prompt.now + 132) ≤ vec_capacity out.now }
        requires short { length line.now ≤ 128 }
        ensures bytes { out.new.items ≡ out.old.items ++ shown prompt.now line.now self }
        ensures room { vec_capacity out.new ≡ vec_capacity out.old }
    {
        match self {
            Echo::Silent => {}
            Echo::Typed(byte) => push_all(&[byte], out),
            Echo::Erased => push_all(&[8, 32, 8], out),
            Echo::Bell => push_all(&[7], out),
            Echo::Killed => {
                push_all(&[94, 85, 13, 10], out);
                push_all(prompt, out);
            }
            Echo::Reprinted => {
                push_all(&[94, 82, 13, 10], out);
                push_all(prompt, out);
                push_all(line, out);
            }
            Echo::Ended => push_all(&[13, 10], out),
        }
    }
}

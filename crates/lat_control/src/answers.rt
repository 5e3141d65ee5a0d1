//! Who answers lines.

ghost use Rattle.std.specs.Prelude.{ℕ, ◌≤◌, List, length, IfOk, string_bytes};

use lat_base::Memory;
use std::alloc::Global;

/// Who answers lines. An answer has a line feed behind each of its lines, and none of them is empty.
pub trait Answers: Drop {
    // This text is an answer to this line.
    ghost says: { List ℕ → List ℕ → Type 0 };

    /// The answer to a line, without its line feed. `Memory` where none is found for it.
    fn answer(&mut self, alloc: Global, line: &[u8]) -> Result<String, Memory>
        requires short { length line.now ≤ 256 }
        ensures said { IfOk result (λ text. says line.now (string_bytes text)) };
}

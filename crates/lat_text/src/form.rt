//! What is printed where an input hasn't its form.

ghost use Rattle.std.specs.Prelude.{◌≡◌, IfOk, string_bytes};
ghost use Rattle.lat_text.specs.WrongLine.{wrong_line};

use std::alloc::{AllocError, Global};

/// The text that names the first wrong line of an input by its number, counted from 1.
pub fn wrong_line(alloc: Global, number: usize) -> Result<String, AllocError>
    ensures { IfOk result (λ text. string_bytes text ≡ wrong_line number) }
{
    format!(in alloc; "line {number} form\n")
}

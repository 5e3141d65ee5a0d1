//! Texts with a margin.

ghost use Rattle.std.specs.Prelude.{◌≡◌, ◌<◌, ◌∷◌, ◌++◌, length, OnOk, IfNone, IfSome, string_bytes};
ghost use Rattle.lat_print.specs.Indented.{indented, last_indented, margin};

use std::alloc::AllocError;

// The first line of a text, without the line feed that ends it, and the text behind that.
fn first_line(text: &str) -> Option<(&str, &str)>
    ensures found { IfSome result (λ r.
        indented text.now ≡ margin ++ (r.0.now ++ (10 ∷ indented r.1.now))) }
    ensures shorter { IfSome result (λ r. length r.1.now < length text.now) }
    ensures none { IfNone result (indented text.now ≡ last_indented text.now) }
{
    text.split_once('\n')
}

/// Adds a text with four blanks in front of each of its lines.
/// After want of memory a part of it may stand there.
pub fn indented_onto(text: &mut String, printed: &str) -> Result<(), AllocError>
    ensures { OnOk result (string_bytes text.new ≡ string_bytes text.old ++ indented printed.now) }
{
    let mut rest = printed;
    while let Some((line, behind)) = first_line(rest) {
        write!(text, "    {line}\n")?;
        rest = behind;
    }
    if !rest.is_empty() {
        write!(text, "    {rest}")?;
    }
    Ok(())
}

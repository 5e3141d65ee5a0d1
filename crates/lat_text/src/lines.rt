//! The lines of an input.

ghost use Rattle.std.specs.Prelude.{◌≡◌, ◌<◌, length, IfSome, IfNone, position, ◌==◌};
ghost use Rattle.lat_text.specs.Lines.{Lines, lines_of, no_line, line_feed};

use memchr::memchr;

fn line_end(text: &[u8]) -> Option<usize>
    ensures { result ≡ position (λ b. b == line_feed) text.now }
{
    memchr(b'\n', text)
}

/// The first line of a text, without the line feed that ends it, and the text behind that. There is none where no
/// line feed is left: such a text, unless it is empty, is a last line that is wrong in every input.
#[tactic(auto, using(crate::proofs::LineEnds::no_line_ends))]
pub fn first_line(text: &[u8]) -> Option<(&[u8], &[u8])>
    ensures found { IfSome result (λ r. lines_of text.now ≡ Lines.Line r.0.now (lines_of r.1.now)) }
    ensures shorter { IfSome result (λ r. length r.1.now < length text.now) }
    ensures none { IfNone result (lines_of text.now ≡ no_line text.now) }
{
    let end = line_end(text)?;
    let (line, _) = text.split_at(end);
    let (_, behind) = text.split_at(end + 1);
    Some((line, behind))
}

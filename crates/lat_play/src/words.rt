//! What stands behind the words of a line.

/// All behind the first word and the blank that follows it.
pub fn behind<'a>(line: &'a str, first: &str) -> &'a str {
    match line.strip_prefix(first) {
        Some(rest) => rest.strip_prefix(" ").unwrap_or(rest),
        None => "",
    }
}

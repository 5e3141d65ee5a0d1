//! Whether the workers of a daemon do their work, and at the same time: what no contract of theirs can say. Tests alone, over pairs of
//! daemons on the loopback address.
#![tactic(auto)]

#[cfg(test)]
mod tests;

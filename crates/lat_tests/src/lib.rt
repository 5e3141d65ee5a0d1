//! What no clause says of the loopback carrier, of lines over TCP and of a cell, and no program shows. Tests alone, a module for each
//! of these.
#![tactic(auto)]

#[cfg(test)]
mod tests;

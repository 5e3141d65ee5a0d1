//! Laws over cores, cells and the bytes between them: what a cell keeps is a run of the machines, for which the laws of the
//! machines then hold; and what one core sends, the other hears whole.
#![tactic(auto)]

pub mod laws;

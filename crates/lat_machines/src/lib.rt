//! The machines of the server and the node as pure functions of their events, and the world of both. Nothing here runs:
//! the definitions stand in `specs/`, and each law of [`laws`] is a function that takes nothing and whose contract is the
//! statement.
//!
//! The definitions are read in this order, each layer standing on those before it and on the model of circuits
//! (`lat_model`):
//!
//! 1. `values`: names, addresses, messages, notices and frames as values (a payload is what it reads as), the events that
//!    a machine is told (`Events`) and its `Answers`.
//! 2. `cores`: what both machines share: the acts on a table of circuits (`Acts`, `Hearing`), moment and circuits
//!    (`Cores`), lines and their sessions (`Lines`, `Books`, `LineCalls`).
//! 3. `server`: what it heard announced (`Directory`), the requests (`Queue`, `Records`), and `server_step` (`Server`).
//! 4. `node`: `node_step`.
//! 5. `world`: both machines and all frames between them (`Machines`), which frames are `Young`, what each `Bears`, what a
//!    run shows (`Reports`), the histories of the two machines (`Histories`), the numbers of their frames (`Tally`), and what
//!    holds of every run (`Safe`, with `Ties` to the world of circuits, `Spans`, `Home`, and `Refusals`).
#![tactic(auto)]

pub mod laws;

//! The pure model of one circuit, of its two ends, and of all circuits of a server and a node. Nothing here runs: the
//! definitions stand in `specs/`, and each law of [`laws`] is a function that takes nothing and whose contract is the
//! statement.
//!
//! The definitions are read in this order, each layer standing on those before it:
//!
//! 1. `numbers`: messages of any kind with unbounded numbers; how a number is found again from its field (`Near`), what
//!    one end keeps (`Link`), two ends and all frames between them (`Net`), and what they keep (`NetOk`). It knows no slot.
//! 2. `sessions`: `Slots`, one `Session`, all `Sessions` of an end, local `Calls`, what a session may form (`Offers`), a
//!    whole message (`Packing`), a message that is heard (`Hearing`), what one end alone knows (`EndOk`, `PeersApart`), and
//!    two ends whose slots lie on a wire (`Joined`). It knows no frame, no loss and no time.
//! 3. `ends`: one end of a circuit (`End`), its `Timers`, what a `Run` does to it, and how it begins (`Starting`).
//! 4. `circuits`: a `Pair` of ends, the `World` of all circuits of a server and a node with its `Events`, and what holds of
//!    both: the invariant of two ends (`Agree`, with `InOrder`, `Matched` and `History`), frames as they are heard (`Heard`,
//!    `Comes`) and `Spans`. `Together` and `WorldOk` are what the proofs keep.
//!
//! `Lists` has the words about lists that the layers share. docs/MODEL.md goes through all of them.
#![tactic(auto)]

pub mod laws;

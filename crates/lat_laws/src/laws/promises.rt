//! The laws of every world that a run of the two machines comes to, however frames are lost, repeated or brought out of
//! order, and whatever foreign frames come.

ghost use Rattle.std.specs.Prelude.{List};
ghost use Rattle.lat_machines.specs.world.Machines.{Setups, Move, run, open_machines};
ghost use Rattle.lat_machines.specs.world.Safe.{Fit};
ghost use Rattle.lat_laws.specs.promises.Circuits.{RunningIsShared, NothingSaidBefore, WithinWindows};
ghost use Rattle.lat_laws.specs.promises.Rows.{RowsInOrder, NodeSessionsHaveRows, RowsWithinCredit};

/// In each row of a report what was taken are the first of the items that were put at the other end, both ways: from the
/// server to the node in every row, and back in every row of a session with the node, as each is that shows a line of the
/// node. Of a session with a stranger the report tells nothing that was put at its other end.
pub fn rows_are_in_order()
    ensures { (u : Setups) (moves : List Move) → Fit u →
        RowsInOrder u (run u moves (open_machines u)) }
{}

/// Each session that the node has accepted on a circuit to the server stands in just one row: that of the session of the
/// server whose partner it is. So no row leaves out what a session of the node has put and taken.
pub fn node_sessions_have_their_rows()
    ensures { (u : Setups) (moves : List Move) → Fit u →
        NodeSessionsHaveRows u (run u moves (open_machines u)) }
{}

/// In each such row no more credits were used up than the other end had given: back in every row, and from the server to the
/// node in every row of a session with the node. Of what a stranger gave the report tells nothing.
pub fn rows_keep_to_their_credits()
    ensures { (u : Setups) (moves : List Move) → Fit u →
        RowsWithinCredit u (run u moves (open_machines u)) }
{}

/// Each circuit of the server to the node whose reply was heard is shared with the slave that it names. So what is said of
/// shared circuits (`EndsAgree`, `StreamsInOrder`, `SlotsCredited`) is said of every circuit that runs.
pub fn running_circuits_are_shared()
    ensures { (u : Setups) (moves : List Move) → Fit u →
        RunningIsShared u (run u moves (open_machines u)) }
{}

/// A slave of the server whose reply no circuit heard, and a circuit of the server that heard no reply, have formed and taken
/// no message.
pub fn nothing_is_said_before_the_reply()
    ensures { (u : Setups) (moves : List Move) → Fit u →
        NothingSaidBefore u (run u moves (open_machines u)) }
{}

/// Each circuit of both ends, a stranger's too, has formed at most so many messages as are known to be taken and its own
/// window, which is at most 8.
pub fn ends_keep_to_their_windows()
    ensures { (u : Setups) (moves : List Move) → Fit u →
        WithinWindows (run u moves (open_machines u)) }
{}

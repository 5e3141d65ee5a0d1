//! The laws of the halt of a machine.

ghost use Rattle.lat_laws.specs.halts.Dead.{HaltedServerIsDead, HaltedNodeIsDead, ServerStaysHalted, NodeStaysHalted};
ghost use Rattle.lat_laws.specs.halts.Idle.{HaltedIsAnswered, HaltedServerBeginsNone, HaltedServerGrantsNone, HaltedNodeTurnsAway, HaltedNodeMakesNone, HaltedNodeAnnouncesNothing};
ghost use Rattle.lat_laws.specs.halts.Once.{ServerHaltsOnce, NodeHaltsOnce};

/// Behind a halt no circuit of the machine lives, and none comes, whatever events follow (`server`, `node`). It stays halted
/// (`server_stays`, `node_stays`).
pub fn halted_machines_have_no_circuit()
    ensures server { HaltedServerIsDead }
    ensures node { HaltedNodeIsDead }
    ensures server_stays { ServerStaysHalted }
    ensures node_stays { NodeStaysHalted }
{}

/// A server answers `Halted` exactly where it is halted and told to connect (`answered`). No event of a halted one makes a line
/// session or a circuit (`begins`), and its pass grants nothing (`grants`).
pub fn halted_servers_begin_nothing()
    ensures answered { HaltedIsAnswered }
    ensures begins { HaltedServerBeginsNone }
    ensures grants { HaltedServerGrantsNone }
{}

/// A halted node refuses each START by a STOP that says so, from no circuit, and nothing else changes but the moment (`away`).
/// No event makes a circuit (`makes`), and it announces nothing (`announces`).
pub fn halted_nodes_begin_nothing()
    ensures away { HaltedNodeTurnsAway }
    ensures makes { HaltedNodeMakesNone }
    ensures announces { HaltedNodeAnnouncesNothing }
{}

/// A second halt changes nothing and sends nothing.
pub fn a_second_halt_does_nothing()
    ensures server { ServerHaltsOnce }
    ensures node { NodeHaltsOnce }
{}

//! The laws of the two machines. Those of a world hold for every run of a server and a node, however frames are lost,
//! repeated or brought out of order, and whatever foreign frames come; those of one machine hold whatever it hears.

ghost use Rattle.std.specs.Prelude.{◌≡◌, ℕ, ◌<◌, List};
ghost use Rattle.lat_machines.specs.values.Events.{Event};
ghost use Rattle.lat_machines.specs.server.Queue.{LegalQueue};
ghost use Rattle.lat_machines.specs.server.Server.{ServerConfig, open_server};
ghost use Rattle.lat_machines.specs.node.Node.{NodeConfig, Node, node_step, SameButFrames};
ghost use Rattle.lat_machines.specs.world.Machines.{Setups, Move, run, open_machines};
ghost use Rattle.lat_machines.specs.world.Safe.{Fit, IsCircuits, EndsAgree, SharedMatch, GenerationsArePlaces, StreamsInOrder, SlotsCredited};
ghost use Rattle.lat_machines.specs.world.Safe.{FramesAreTrue, NeverBreaks, HeardByBytes, NoGrant, Safe};
ghost use Rattle.lat_machines.specs.world.Histories.{server_run, HasHistories, HistoriesAreAWorld};
ghost use Rattle.lat_machines.specs.world.Spans.{OneSpan};
ghost use Rattle.lat_machines.specs.world.Tally.{ServerTallies, NodeTallies, MachinesTally, YouthIsTallied};
ghost use Rattle.lat_machines.specs.world.Refusals.{ServerUnchanged, NodeUnchanged, ServerHearsNoLayout, NodeHearsNoLayout, ServerBadOnly, NodeBadOnly};
ghost use Rattle.lat_machines.specs.world.Home.{ServerHearsAtHome, ServerStaysHome, NodeStaysHome};

// of every world

/// All that holds of every run of the two machines, in one record: the laws below up to `grants_leave_none`, but
/// `histories_are_a_world`.
pub fn machines_are_safe()
    ensures { (u : Setups) (moves : List Move) → Fit u → Safe u (run u moves (open_machines u)) }
{}

/// Every run of the two machines is a run of the world of circuits: some list of its events gives the tables of circuits of
/// both, and the frames that they sent, in order. So each law of that world holds here.
pub fn runs_are_circuit_runs()
    ensures { (u : Setups) (moves : List Move) → Fit u →
        IsCircuits u (run u moves (open_machines u)) }
{}

/// On each circuit of both ends whose reply was heard the whole invariant of two ends holds: numbers agree, streams are in
/// order both ways, sessions are matched by their generations, no credit is lost, doubled or spent before it came, and an id
/// is used again only when the session before is over.
pub fn both_ends_agree()
    ensures { (u : Setups) (moves : List Move) → Fit u →
        EndsAgree u (run u moves (open_machines u)) }
{}

/// Each such circuit of the node has the server's address and runs, and both ends of it are wide exactly where both
/// configurations are.
pub fn shared_circuits_match()
    ensures { (u : Setups) (moves : List Move) → Fit u →
        SharedMatch u (run u moves (open_machines u)) }
{}

/// On such a circuit a generation is the place of its ask: among all messages that the server's end formed, the first ask has
/// the generation 1, and each later one the next.
pub fn generations_are_places()
    ensures { (u : Setups) (moves : List Move) → Fit u →
        GenerationsArePlaces u (run u moves (open_machines u)) }
{}

/// Of each session on such a circuit, both ways: what one end took is a prefix of what it heard, that of what the other end
/// framed, and that of what was put there.
pub fn streams_are_in_order()
    ensures { (u : Setups) (moves : List Move) → Fit u →
        StreamsInOrder u (run u moves (open_machines u)) }
{}

/// Each credited slot on such a circuit had its credit: up to and with each message, a session has spent no more credits than
/// stood in the messages that its end had taken when it formed this message.
pub fn slots_are_credited()
    ensures { (u : Setups) (moves : List Move) → Fit u →
        SlotsCredited u (run u moves (open_machines u)) }
{}

/// Each RUN that one end sent the other is true to the circuit that sent it: its number and acknowledgement are reached; a
/// new or a repeated one bears the slots of the message of its number, which has some, and a bare one bears none.
pub fn frames_are_true()
    ensures { (u : Setups) (moves : List Move) → Fit u →
        FramesAreTrue u (run u moves (open_machines u)) }
{}

/// No frame that one end sent breaks a circuit of the other, at any moment and any number of times.
pub fn no_frame_breaks()
    ensures { (u : Setups) (moves : List Move) → Fit u →
        NeverBreaks u (run u moves (open_machines u)) }
{}

/// A young frame, less than half a range behind in both numbers, is heard by its number fields as by its numbers.
pub fn young_frames_are_heard_by_bytes()
    ensures { (u : Setups) (moves : List Move) → Fit u →
        HeardByBytes u (run u moves (open_machines u)) }
{}

/// Both ends of a circuit have one span: each running circuit of one end to the other's address is wide exactly where both
/// configurations are, and each RUN that one end sends the other is of this kind.
pub fn both_ends_have_one_span()
    ensures { (u : Setups) (moves : List Move) → Fit u → OneSpan u (run u moves (open_machines u)) }
{}

/// In every run of the two each machine is the run of a history of its own, so what the laws of one machine say holds there.
pub fn runs_are_histories()
    ensures { (u : Setups) (moves : List Move) → HasHistories u (run u moves (open_machines u)) }
{}

/// A history of a server and one of a node, in any order in which each frame that one heard from the other's address is a
/// young one that the other had made, are a run of the two machines, and it is safe.
pub fn histories_are_a_world()
    ensures { HistoriesAreAWorld }
{}

// of one machine

/// Whatever a server hears, and from whom: each of its grants went to the first that waited for the service just then. So
/// no request is granted twice, and none after its cancel.
pub fn queue_is_legal()
    ensures { (config : ServerConfig) (events : List Event) →
        LegalQueue (server_run config events (open_server config)).queue }
{}

/// Whatever a server hears, and from whom: after each event no line could grant a request.
pub fn grants_leave_none()
    ensures { (config : ServerConfig) (events : List Event) →
        0 < config.timing.sessions →
        NoGrant config (server_run config events (open_server config)) }
{}

/// A frame leaves the server's circuits of other addresses as they were (`hearing`), but for the sessions that the grant
/// pass behind it connects (`step`).
pub fn server_heard_stays_home()
    ensures hearing { ServerHearsAtHome }
    ensures step { ServerStaysHome }
{}

/// A frame leaves the node's circuits of other addresses as they were.
pub fn node_heard_stays_home()
    ensures { NodeStaysHome }
{}

/// A frame of no layout changes nothing but the moment: the answer is `Bad` with its first bad field, no frame goes out, and
/// the grant pass that follows at the server grants nothing. Of a server behind every history, and of a node in every state.
pub fn frames_of_no_layout_change_nothing()
    ensures server { ServerHearsNoLayout }
    ensures node { NodeHearsNoLayout }
{}

/// Only a frame of no layout is answered `Bad`, with the bad field that it was read as.
pub fn bad_is_of_no_layout()
    ensures server { ServerBadOnly }
    ensures node { NodeBadOnly }
{}

/// Behind every history: where an event is refused, or a notice means nothing here (`changes_nothing` lists the answers),
/// nothing has changed but the moment, and no frame goes out; nor does the server grant anything then.
pub fn refusals_change_nothing()
    ensures server { ServerUnchanged }
    ensures node { NodeUnchanged }
{}

/// The ratings that a node's hook gives change the frames of an event alone: state and answer don't depend on them.
pub fn ratings_change_frames_alone()
    ensures { (config : NodeConfig) (rates others : List ℕ) (state : Node) (event : Event) →
        SameButFrames (node_step config rates state event) (node_step config others state event) }
{}

/// The two numbers of each frame are those that are tallied: a new message has the next number of its circuit, a repeated
/// one the newest less its mark, a RUN without slots the newest; and a frame acknowledges as many messages as its circuit
/// had answered as taken, one in the same event counted. A new or a repeated RUN bears the slots of the message of its
/// number, which has some; a bare one bears none. What a circuit has shown is raised by its RUNs alone, to all that it took.
/// Of a server's frames (`server`) and a node's (`node`), at every event of every history; and of both in every run of the
/// two (`machines`).
pub fn numbers_are_tallied()
    ensures server { ServerTallies }
    ensures node { NodeTallies }
    ensures machines { MachinesTally }
{}

/// A frame is young exactly where the test says so that a program makes from its tallies.
pub fn youth_is_tallied()
    ensures { YouthIsTallied }
{}

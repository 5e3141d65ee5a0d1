//! The laws of rounds, and of what stands below them.
//!
//! Rounds promise what they promise of a calm world: neither end is prompt, and nobody is halted. Such an end breaks nothing
//! off: it sends a STOP from each circuit that ends, and none from no circuit. Lines may be ready or not.

ghost use Rattle.std.specs.Prelude.{◌≡◌, ◌≢◌, ℕ, ◌+◌, ◌<◌, ◌≤◌, true, false, Bool, List, [], length, Some, slice_get};
ghost use Rattle.lat_model.specs.Lists.{Each};
ghost use Rattle.lat_model.specs.sessions.Slots.{Slot};
ghost use Rattle.lat_model.specs.sessions.Sessions.{Sessions, of_generation};
ghost use Rattle.lat_model.specs.sessions.Packing.{TaggedSlot, pack};
ghost use Rattle.lat_model.specs.sessions.Joined.{Joined};
ghost use Rattle.lat_model.specs.sessions.EndOk.{EndOk};
ghost use Rattle.lat_model.specs.numbers.Link.{Frame};
ghost use Rattle.lat_model.specs.numbers.NetOk.{Young};
ghost use Rattle.lat_model.specs.ends.End.{Mark, Run, End, lives};
ghost use Rattle.lat_model.specs.ends.Timers.{time_step};
ghost use Rattle.lat_model.specs.ends.Starting.{Setup};
ghost use Rattle.lat_model.specs.circuits.World.{World};
ghost use Rattle.lat_model.specs.circuits.WorldOk.{WorldOk};
ghost use Rattle.lat_model.specs.circuits.Events.{WorldEvent, go_on, open_world};
ghost use Rattle.lat_laws.specs.rounds.Idle.{AtRest, AllThrough};
ghost use Rattle.lat_laws.specs.rounds.Measure.{total, weights, most_of, AllFrugal, AllNumbered};
ghost use Rattle.lat_laws.specs.rounds.Plain.{WorldPlain, ShortWorldEvent};
ghost use Rattle.lat_machines.specs.world.Machines.{Setups, Machines, Move, run, open_machines};
ghost use Rattle.lat_laws.specs.rounds.Lossless.{is_in, Lossless};
ghost use Rattle.lat_laws.specs.rounds.Rounds.{rounds};
ghost use Rattle.lat_laws.specs.rounds.Calm.{Calm};
ghost use Rattle.lat_laws.specs.rounds.Settles.{Begins, ShortMove, RoundsAreYoung, RoundsSettle};
ghost use Rattle.lat_laws.specs.rounds.Carried.{flying, server_end, node_end, Kinds, Carried, IsNext, Orderly, done_all};
ghost use Rattle.lat_laws.specs.rounds.Progress.{Still, Ready, Brings};

/// Two ends with nothing on the wire, all items taken and nothing to send have brought all that was put, both ways, in each
/// session that the master holds and neither end has closed.
pub fn silent_ends_are_through()
    ensures { (room back : ℕ) (m s : Sessions) → AtRest room back m s → AllThrough m s }
{}

/// A message brings the sessions of its end forward by as many slots as it has.
pub fn messages_bring_forward()
    ensures { (room : ℕ) (e : Sessions) → EndOk e →
        weights e + length (pack room e).slots ≤ weights (pack room e).after }
{}

/// The sessions of two ends come no further than what was put brings them: for each session of the master six slots, and
/// two for each item put in it at either end.
pub fn sessions_have_an_end()
    ensures { (m s : Sessions) (up down : List TaggedSlot) →
        Joined m s up down →
        AllFrugal m →
        AllFrugal s →
        AllNumbered m →
        weights m + weights s ≤ total (λ k.
        most_of (m.session k) (of_generation s (m.session k).generation)) m.made }
{}

/// In every run of the world of circuits in which the names of services are short, the sessions of each circuit of both ends
/// are plain: frugal slots, short names, and no stop where neither end has closed.
pub fn sessions_stay_plain()
    ensures { (server node first other : ℕ) (u v : Setup) (events : List WorldEvent) →
        server ≢ node →
        u.ceiling ≤ 255 →
        v.ceiling ≤ 255 →
        Each ShortWorldEvent events →
        WorldPlain (go_on events (open_world server node first other u v)) }
{}

/// In every run in which frames come in order, no circuit lapses and no STOP comes from no circuit, what is in flight between
/// two circuits brings what was sent; where a slave has ended, its STOP is in flight; and a slave whose master waits has its
/// reply in flight.
pub fn frames_are_carried()
    ensures { (server node first other : ℕ) (u v : Setup) (events : List WorldEvent) →
        server ≢ node →
        u.ceiling ≤ 255 →
        v.ceiling ≤ 255 →
        Orderly (open_world server node first other u v) [] events →
        Carried (go_on events (open_world server node first other u v))
        (done_all (open_world server node first other u v) [] events) }
{}

/// A frame of a run of the server that comes to the node in its turn is young, where both ends live.
pub fn runs_of_servers_are_young()
    ensures { (w : World) (done : List ℕ) (i p to d s r : ℕ) (mark : Mark) (ask : Bool)
        (f : Frame (List Slot)) →
        WorldOk w →
        Carried w done →
        slice_get w.frames i
        ≡ Some (record {
          by_server = true;
          circuit = p;
          to = to;
          destination = d;
          source = s;
          sent = Run mark ask f;
        }) →
        to ≡ w.node.own →
        is_in i done ≡ false →
        IsNext w done (record {
          by_server = true;
          circuit = p;
          to = to;
          destination = d;
          source = s;
          sent = Run mark ask f;
        }) i →
        lives (server_end w p) ≡ true →
        lives (node_end w d) ≡ true →
        16 < r →
        Young (List Slot) r (server_end w p).half.link f }
{}

/// And so is one of the node that comes to the server.
pub fn runs_of_nodes_are_young()
    ensures { (w : World) (done : List ℕ) (i q to d s r : ℕ) (mark : Mark) (ask : Bool)
        (f : Frame (List Slot)) →
        WorldOk w →
        Carried w done →
        slice_get w.frames i
        ≡ Some (record {
          by_server = false;
          circuit = q;
          to = to;
          destination = d;
          source = s;
          sent = Run mark ask f;
        }) →
        to ≡ w.server.own →
        is_in i done ≡ false →
        IsNext w done (record {
          by_server = false;
          circuit = q;
          to = to;
          destination = d;
          source = s;
          sent = Run mark ask f;
        }) i →
        (w.server.circuit_at d).address ≡ w.node.own →
        lives (server_end w d) ≡ true →
        (server_end w d).running ≡ true →
        (server_end w d).peer ≡ q →
        lives (node_end w q) ≡ true →
        16 < r →
        Young (List Slot) r (node_end w q).half.link f }
{}

/// Where nothing is in flight between a running circuit of the server and its slave, the slave lives, and each end has taken
/// all that the other sent, and knows so but for what is owed.
pub fn nothing_in_flight_is_still()
    ensures { (w : World) (done : List ℕ) (p : ℕ) →
        WorldOk w →
        Kinds w →
        Carried w done →
        (w.server.circuit_at p).address ≡ w.node.own →
        lives (server_end w p) ≡ true →
        (server_end w p).running ≡ true →
        flying w done true p ≡ [] →
        flying w done false (server_end w p).peer ≡ [] →
        (lives (node_end w (server_end w p).peer) ≡ true)
        × Still (server_end w p) (node_end w (server_end w p).peer) }
{}

/// A round between two ends with nothing in flight brings their sessions forward, or all that was put is through.
pub fn rounds_bring_forward()
    ensures { (now : ℕ) (m s : End) →
        Ready now m s →
        lives (time_step now m).end ≡ true →
        lives (time_step now s).end ≡ true →
        Brings now m s }
{}

/// Nothing is lost in the rounds of a calm world, and what stands behind them is a run of the two machines, of a calm world
/// too.
pub fn nothing_is_lost_in_rounds()
    ensures { (u : Setups) (now : ℕ) (w : Machines) (rs : List (List (List ℕ))) →
        Begins u now w →
        Lossless u (rounds u now rs w) ×
        ((moves : List Move) × (rounds u now rs w ≡ run u moves (open_machines u))
        × Each ShortMove moves
        × Calm u moves) }
{}

/// Each frame that rounds of a calm world deliver is young, also one of an end that has ended since.
pub fn rounds_are_young()
    ensures { RoundsAreYoung }
{}

/// In a calm world at which nothing was lost, rounds bring all that was put: behind whole rounds, four for each item put,
/// twenty for each session and twenty more, each session that the server still holds and neither end has closed has taken,
/// both ways, what the other end has put.
pub fn rounds_settle()
    ensures { RoundsSettle }
{}

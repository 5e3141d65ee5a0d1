//! The laws of circuits. Each holds for every run, however frames are lost, repeated or brought out of order.

ghost use Rattle.std.specs.Prelude.{◌≡◌, ℕ, ◌+◌, ◌*◌, ◌%◌, ◌<◌, ◌≤◌, slice_get, suc, cond, nat_eq, ◌≢◌, Some, Bool, true, false, List, not, length, ◌-◌, min, ◌&&◌};
ghost use Rattle.lat_model.specs.numbers.Near.{near, ahead};
ghost use Rattle.lat_model.specs.sessions.Packing.{TaggedSlot, Packing, turn, pack, waiting_rejects};
ghost use Rattle.lat_model.specs.sessions.Session.{Session, free, held_slots};
ghost use Rattle.lat_model.specs.sessions.Sessions.{Sessions, named, held, least_free};
ghost use Rattle.lat_model.specs.sessions.Calls.{Call, call};
ghost use Rattle.lat_model.specs.sessions.Hearing.{hear_slot};
ghost use Rattle.lat_model.specs.sessions.Slots.{Slot, items, items_of, credits, costs, source, is_start};
ghost use Rattle.lat_model.specs.sessions.EndOk.{EndOk, Accounts, Small, AllSmall, IdsWithin};
ghost use Rattle.lat_model.specs.sessions.PeersApart.{PeersApart};
ghost use Rattle.lat_model.specs.numbers.Link.{Frame, fresh};
ghost use Rattle.lat_model.specs.ends.End.{Mark, Run};
ghost use Rattle.lat_model.specs.ends.Run.{RunBroke, run_end};
ghost use Rattle.lat_model.specs.circuits.World.{Wired, World, table};
ghost use Rattle.lat_model.specs.circuits.Ids.{id_behind, ids_of, is_id_of, Rises};
ghost use Rattle.lat_model.specs.Lists.{Each};
ghost use Rattle.lat_model.specs.circuits.Events.{WorldRun, open_world};
ghost use Rattle.lat_model.specs.circuits.Spans.{TellSpans};
ghost use Rattle.lat_model.specs.circuits.WorldOk.{Idle, Joint};
ghost use Rattle.lat_model.specs.circuits.Agree.{Agree, the_half};
ghost use Rattle.lat_model.specs.circuits.Comes.{Comes};
ghost use Rattle.lat_model.specs.circuits.Pair.{Pair, PairRun, end_of};
ghost use Rattle.lat_model.specs.ends.Starting.{no_sessions};
ghost use Rattle.lat_model.specs.circuits.InOrder.{InOrder};
ghost use Rattle.lat_model.specs.circuits.History.{Credited, IdsUsedAgain};
ghost use Rattle.lat_model.specs.circuits.Heard.{IsYoung, hearer, heard_frame};
ghost use Rattle.lat_model.specs.numbers.Net.{Net, Move, run_net, start_net, side};
ghost use Rattle.lat_model.specs.numbers.NetOk.{NetOk, Young, FrameOf, as_bytes};

/// A number that lies within half a range of the known one is found again from its field: below the known number by
/// less than `r + 1`, or above it by less than `r`, where the field counts modulo `2 * r`.
pub fn near_is_found()
    ensures { (n x r : ℕ) → 0 < r → x < n + r + 1 → n < x + r → near (n % (2 * r)) x r ≡ n }
{}

/// The tests that a program makes. A field that lies ahead of the known number by less than half a range is that many
/// above it (`ahead`), any other is at most the known one (`behind`), and the field of the next number is the only one that
/// is heard as the next number (`next`).
pub fn near_by_distance()
    ensures ahead { (b x r : ℕ) → 0 < r → ahead b x r < r → near b x r ≡ x + ahead b x r }
    ensures behind { (b x r : ℕ) → 0 < r → r ≤ ahead b x r → near b x r ≤ x }
    ensures next { (n x r : ℕ) → 1 < r → n < 2 * r → near n x r ≡ x + 1 → n ≡ (x + 1) % (2 * r) }
{}

/// Whatever is lost, repeated or brought out of order, two ends keep what is known of their messages and frames: what one
/// end took is the first so many of the messages that the other formed, at most eight are unacknowledged, and no frame
/// acknowledges what was not taken.
pub fn two_ends_agree()
    ensures { (moves : List (Move (List TaggedSlot))) →
        NetOk (List TaggedSlot) (run_net moves start_net) }
{}

/// In every such run a young frame, less than half a range behind in both numbers, is heard by its number fields as by its
/// unbounded numbers (`bytes`), and any frame acknowledges only what was sent (`sent`).
pub fn young_frames_are_heard_whole()
    ensures bytes { (r : ℕ) (w : Net (List TaggedSlot)) (b : Bool) (f : Frame (List TaggedSlot)) →
        8 < r →
        NetOk (List TaggedSlot) w →
        FrameOf (List TaggedSlot) (side w b) f →
        Young (List TaggedSlot) r (side w b) f →
        as_bytes r (side w (not b)) f ≡ f }
    ensures sent { (w : Net (List TaggedSlot)) (b : Bool) (f : Frame (List TaggedSlot)) →
        NetOk (List TaggedSlot) w →
        FrameOf (List TaggedSlot) (side w b) f →
        f.acknowledgement ≤ length (side w (not b)).sent }
{}

/// Of each session of a pair of circuits, under every list of events: what one end took is a prefix of what it heard, that
/// of what the other end framed, and that of what was put there.
pub fn pair_is_in_order()
    ensures { (w : Pair) → PairRun w → InOrder w }
{}

/// Each credited slot of a pair had its credit: up to and with each message, a session has spent no more credits than
/// stood in the messages that its end had taken when it formed this message.
pub fn pair_is_credited()
    ensures { (w : Pair) → PairRun w → Credited w.master.half × Credited w.slave.half }
{}

/// In a pair an id is used again only when the session that had it is over: both stops formed and taken, or its reject
/// taken, before the message with the new start was formed.
pub fn pair_uses_ids_again()
    ensures { (w : Pair) → PairRun w → IdsUsedAgain w.master.half × IdsUsedAgain w.slave.half }
{}

/// The two ends of a pair agree on numbers, sessions and credits at every moment: the whole invariant of two ends.
pub fn pair_agrees()
    ensures { (w : Pair) → PairRun w → Agree w.master.half w.slave.half }
{}

/// A RUN among the frames of a pair is one of its sender's: its number is at most that of the newest message, its
/// acknowledgement at most what was shown, and its slots are those of the message of its number.
pub fn pair_frames_are_true()
    ensures { (w : Pair) (i : ℕ) (b ask : Bool) (m : Mark) (f : Frame (List Slot)) →
        PairRun w →
        slice_get w.posts i ≡ Some (record { by_master = b; sent = Run m ask f }) →
        FrameOf (List Slot) (end_of w b).half.link f }
{}

/// No RUN that one end of a pair sent breaks the circuit of the other, whenever and how often it comes.
pub fn pair_never_breaks()
    ensures { (w : Pair) (i now : ℕ) (b ask : Bool) (m : Mark) (f : Frame (List Slot)) →
        PairRun w →
        slice_get w.posts i ≡ Some (record { by_master = b; sent = Run m ask f }) →
        (run_end now ask f (hearer w b)).answer ≢ RunBroke }
{}

/// A young RUN of a pair is heard by its number fields as by its numbers.
pub fn pair_hears_bytes()
    ensures { (w : Pair) (i r : ℕ) (b ask : Bool) (m : Mark) (f : Frame (List Slot)) →
        PairRun w →
        slice_get w.posts i ≡ Some (record { by_master = b; sent = Run m ask f }) →
        IsYoung r w b f →
        heard_frame r w b f ≡ f }
{}

/// The ids of a core's circuits, of which 65,535 can be drawn. The first one has the id that was chosen (`first`), and each
/// next one the id behind it, 1 behind 65,535 (`next`). Each is 1 to 65,535 (`low`), and none comes twice (`once`). What was
/// drawn is what came (`drawn`, `only`): so many ids (`count`), which stand in their list by rising number (`rising`, `listed`).
pub fn circuit_ids_follow()
    ensures first { (first : ℕ) → 1 ≤ first → first ≤ 65535 → id_behind first 0 ≡ first }
    ensures next { (first n : ℕ) →
        1 ≤ first →
        first ≤ 65535 →
        n + 1 < 65535 →
        id_behind first (suc n) ≡ cond (nat_eq (id_behind first n) 65535) 1 (suc (id_behind first n)) }
    ensures low { (first n : ℕ) → n < 65535 → (id_behind first n ≢ 0) × (id_behind first n ≤ 65535) }
    ensures once { (first m n : ℕ) → m ≢ n → id_behind first m ≢ id_behind first n }
    ensures drawn { (first n k : ℕ) → k < n → is_id_of first n (id_behind first k) ≡ true }
    ensures only { (first n x : ℕ) → is_id_of first n x ≡ true →
        (k : ℕ) × ((k < n) × (id_behind first k ≡ x)) }
    ensures count { (first n : ℕ) → length (ids_of first n) ≡ n }
    ensures rising { (first n : ℕ) → Rises 0 (ids_of first n) }
    ensures listed { (first n : ℕ) → Each (λ x. is_id_of first n x ≡ true) (ids_of first n) }
{}

/// A circuit of the server to the node that runs is joint with the slave that it names, and this slave names it (`answered`).
/// So what the laws say of joint circuits holds of every circuit whose reply was heard. A slave of the server whose circuit
/// isn't joint has formed nothing and taken nothing (`idle`), and a circuit of the server whose reply wasn't heard has formed
/// and taken no message (`calling`).
pub fn circuits_are_joined()
    ensures answered { (w : World) (p : ℕ) →
        WorldRun w →
        (w.server.circuit_at p).address ≡ w.node.own →
        (w.server.circuit_at p).end.running ≡ true →
        Joint w (w.server.circuit_at p).end.peer
        × ((w.node.circuit_at (w.server.circuit_at p).end.peer).end.peer ≡ p) }
    ensures idle { (w : World) (q : ℕ) →
        WorldRun w →
        (w.node.circuit_at q).address ≡ w.server.own →
        (Joint w q → ⊥) →
        Idle (w.node.circuit_at q).end }
    ensures calling { (w : World) (p : ℕ) →
        WorldRun w →
        (w.server.circuit_at p).end.running ≡ false →
        (w.server.circuit_at p).end.half.link ≡ fresh }
{}

/// Each end keeps to its own window, which its peer's START stated: on every circuit of both tables, the messages formed are
/// at most those known to be taken and the window together (`within`), and no window is above 8 (`most`).
pub fn windows_hold()
    ensures within { (w : World) (b : Bool) (x : ℕ) →
        WorldRun w →
        length (the_half w b x).link.sent ≤ (the_half w b x).link.known + ((table w b).circuit_at x).end.window }
    ensures most { (w : World) (b : Bool) (x : ℕ) → WorldRun w →
        ((table w b).circuit_at x).end.window ≤ 8 }
{}

/// Each circuit of a server and a node whose reply was heard keeps the whole invariant of two ends, whatever frames come,
/// foreign ones too: numbers agree, streams are in order, sessions are matched, and no credit is lost, doubled or spent
/// before it came.
pub fn world_agrees()
    ensures { (w : World) (q : ℕ) →
        WorldRun w →
        Joint w q →
        Agree (the_half w true (w.node.circuit_at q).end.peer) (the_half w false q) }
{}

/// Each credited slot on such a circuit had its credit, at both ends.
pub fn world_is_credited()
    ensures { (w : World) (q : ℕ) →
        WorldRun w →
        Joint w q →
        Credited (the_half w true (w.node.circuit_at q).end.peer) × Credited (the_half w false q) }
{}

/// On such a circuit an id is used again only when the session that had it is over, at both ends.
pub fn world_uses_ids_again()
    ensures { (w : World) (q : ℕ) →
        WorldRun w →
        Joint w q →
        IdsUsedAgain (the_half w true (w.node.circuit_at q).end.peer)
        × IdsUsedAgain (the_half w false q) }
{}

/// A RUN of one end that names a circuit of the other is a true frame of the circuit that sent it.
pub fn world_frames_are_true()
    ensures { (w : World) (i : ℕ) (p : Wired) (ask : Bool) (f : Frame (List Slot)) →
        WorldRun w →
        slice_get w.frames i ≡ Some p →
        Comes w p ask f →
        FrameOf (List Slot) (the_half w p.by_server p.source).link f }
{}

/// No RUN that one end of a world sent breaks the circuit of the other that it names, whenever and how often it comes.
pub fn world_never_breaks()
    ensures { (w : World) (i now : ℕ) (p : Wired) (ask : Bool) (f : Frame (List Slot)) →
        WorldRun w →
        slice_get w.frames i ≡ Some p →
        Comes w p ask f →
        (run_end now ask f ((table w
        (not p.by_server)).circuit_at p.destination).end).answer ≢ RunBroke }
{}

/// A RUN of one end that names a circuit of the other and is young is heard there by its number fields as by its numbers.
pub fn world_hears_bytes()
    ensures { (w : World) (i r : ℕ) (p : Wired) (ask : Bool) (f : Frame (List Slot)) →
        WorldRun w →
        slice_get w.frames i ≡ Some p →
        Comes w p ask f →
        8 < r →
        Young (List Slot) r (the_half w p.by_server p.source).link f →
        as_bytes r (the_half w (not p.by_server) p.destination).link f ≡ f }
{}

/// Both ends of a circuit have one span: where each START that comes is read as its sender's configuration states it, the
/// slave and the master that heard its reply are wide exactly where both configurations are. So each RUN of either is of
/// the other's kind, and a RUN of another kind is foreign.
pub fn both_ends_have_one_span()
    ensures { (w : World) (r : WorldRun w) (wide_server wide_node : Bool) (q : ℕ) →
        TellSpans wide_server wide_node (open_world r.server r.node r.first r.other_first r.setup r.other) r.events →
        Joint w q →
        ((w.node.circuit_at q).end.wide ≡ (wide_server && wide_node))
        × ((w.server.circuit_at (w.node.circuit_at q).end.peer).end.wide
        ≡ (wide_server && wide_node)) }
{}

/// What one end knows of its sessions (`EndOk`) it keeps beside any peer: a new end has it, and it stays at a lower agreed
/// number (`agrees`), at each local call (`calls`), at each slot that isn't bad, whatever the peer sends (`hears`; a start
/// has a source, as its layout says), at each turn of packing (`turns`) and so with each message formed (`packs`).
pub fn end_stays_good()
    ensures begins { (master : Bool) (sessions ceiling : ℕ) →
        EndOk (no_sessions master sessions ceiling) }
    ensures agrees { (e : Sessions) (n : ℕ) → EndOk e →
        EndOk (record e { agreed = min n e.agreed }) }
    ensures calls { (e : Sessions) (c : Call) → EndOk e → EndOk (call e c) }
    ensures hears { (e f : Sessions) (x : Slot) →
        EndOk e →
        (is_start x ≡ true → source x ≢ 0) →
        hear_slot e x ≡ Some f →
        EndOk f }
    ensures turns { (p : Packing) (k : ℕ) → EndOk p.after → EndOk (turn p k).after }
    ensures packs { (e : Sessions) (room : ℕ) → EndOk e → EndOk (pack room e).after }
{}

/// What an end may rely on of its own sessions, whatever its peer sends. An id that is held has one session (`holder`),
/// which is found by it (`found`). Below the agreed number there is a free id, from 1 up to the agreed number (`least`). No
/// more credits were used by the peer than given to it (`given`), and no more by this end than it was given (`used`); the
/// credits out and the slots held are at most the ceiling (`ceiling`).
pub fn sessions_stand_apart()
    ensures holder { (e : Sessions) (j k : ℕ) →
        EndOk e →
        free (e.session j) ≡ false →
        free (e.session k) ≡ false →
        (e.session j).id ≡ (e.session k).id →
        j ≡ k }
    ensures found { (e : Sessions) (k : ℕ) → EndOk e → free (e.session k) ≡ false →
        e.at_id (e.session k).id ≡ k }
    ensures least { (e : Sessions) →
        EndOk e →
        held e < e.agreed →
        (free (named e (least_free e)) ≡ true) × (least_free e ≢ 0) × (least_free e ≤ e.agreed) }
    ensures given { (e : Sessions) (k : ℕ) → EndOk e →
        costs (e.session k).came ≤ credits (e.session k).out }
    ensures used { (e : Sessions) (k : ℕ) → EndOk e →
        costs (e.session k).out ≤ credits (e.session k).came }
    ensures ceiling { (e : Sessions) (k : ℕ) →
        EndOk e →
        credits (e.session k).out + held_slots (e.session k) ≤ e.ceiling + costs (e.session k).came }
{}

/// An end whose agreed number is at most `n` uses the ids from 1 to `n` alone (`IdsWithin`): a new end has used none, and it
/// stays so at each local call, each slot heard and each turn of packing. So every other id is free (`past`).
pub fn ids_stay_low()
    ensures begins { (n sessions ceiling : ℕ) (master : Bool) →
        IdsWithin n (no_sessions master sessions ceiling) }
    ensures calls { (n : ℕ) (e : Sessions) (c : Call) → EndOk e → e.agreed ≤ n → IdsWithin n e →
        IdsWithin n (call e c) }
    ensures hears { (n : ℕ) (e f : Sessions) (x : Slot) →
        EndOk e →
        e.agreed ≤ n →
        IdsWithin n e →
        hear_slot e x ≡ Some f →
        IdsWithin n f }
    ensures turns { (n : ℕ) (p : Packing) (k : ℕ) → IdsWithin n p.after →
        IdsWithin n (turn p k).after }
    ensures past { (n : ℕ) (e : Sessions) (i : ℕ) → EndOk e → IdsWithin n e → n < i →
        free (named e i) ≡ true }
{}

/// At most 255 rejects of a slave wait: each is for another source of a peer's start (`PeersApart`), which a new end has, and
/// which stays at each local call, each slot heard and each turn of packing.
pub fn waiting_rejects_fit()
    ensures begins { (sessions ceiling : ℕ) → PeersApart (no_sessions false sessions ceiling) }
    ensures calls { (e : Sessions) (c : Call) → e.master ≡ false → EndOk e → PeersApart e →
        PeersApart (call e c) }
    ensures hears { (e f : Sessions) (x : Slot) →
        e.master ≡ false →
        EndOk e →
        PeersApart e →
        source x < 256 →
        hear_slot e x ≡ Some f →
        PeersApart f }
    ensures turns { (p : Packing) (k : ℕ) → PeersApart p.after → PeersApart (turn p k).after }
    ensures fit { (e : Sessions) → e.master ≡ false → EndOk e → PeersApart e →
        length (waiting_rejects e) ≤ 255 }
{}

/// The heard items of a session that wait to be taken are at most 15 slots of 255 items (`fit`). That no slot heard has more
/// items (`AllSmall`) holds of a new end, and stays at each local call, each slot heard that has at most 255, and each turn
/// of packing.
pub fn heard_items_fit()
    ensures fit { (ceiling : ℕ) (s : Session) →
        ceiling ≤ 15 →
        Accounts ceiling s →
        Small s.came →
        s.closed ≡ false →
        length (items s.came) - s.taken ≤ 3825 }
    ensures begins { (master : Bool) (sessions ceiling : ℕ) →
        AllSmall (no_sessions master sessions ceiling) }
    ensures calls { (e : Sessions) (c : Call) → AllSmall e → AllSmall (call e c) }
    ensures hears { (e f : Sessions) (x : Slot) →
        AllSmall e →
        length (items_of x) ≤ 255 →
        hear_slot e x ≡ Some f →
        AllSmall f }
    ensures turns { (p : Packing) (k : ℕ) → AllSmall p.after → AllSmall (turn p k).after }
{}

//! What a line's worker does outside the lock.

ghost use Rattle.std.specs.Prelude.{◌≡◌, ℕ, false};
ghost use Rattle.lat_mind.specs.Minds.{mind_next};
ghost use Rattle.lat_mind.specs.Phases.{has_caller};
ghost use Rattle.lat_mind.specs.Runs.{Answers, has_event};
ghost use Rattle.lat_turns.specs.Acts.{Accepts, Acted, Dials, HangsUp, IsTold, Reads, Watches, Writes, attached, dialled, dialled_if, knocked, watched};
ghost use Rattle.lat_turns.specs.Lives.{IsCountless, IsPlain, behind};
ghost use Rattle.lat_turns.specs.Tied.{Tied};
ghost use Rattle.lat_turns.specs.Work.{RoseAs, WentOn};

use crate::desk::Desk;
use crate::tray::first;
use crate::write::{PIECE_ITEMS, write_piece};
use lat_mind::{Fact, Look, Move, Phase};
use lat_outside::{Callers, Failed, Knock, Presence};

// What is told of an accept.
fn knocked(came: Result<Knock, Failed>) -> Fact
    ensures value { result ≡ knocked came }
    ensures plain { IsCountless Move.Accept result }
{
    match came {
        Ok(Knock::Came) => Fact::Came,
        Ok(Knock::Quiet) | Err(Failed) => Fact::Quiet,
    }
}

// What is told of a dial for a session.
fn dialled(came: Option<Result<(), Failed>>) -> Fact
    ensures value { result ≡ dialled came }
    ensures plain { IsCountless Move.Dial result }
{
    match came {
        Some(Ok(())) => Fact::Dialled,
        Some(Err(Failed)) | None => Fact::Undialled,
    }
}

// What is told of a dial of the line's device.
fn attached(came: Option<Result<(), Failed>>) -> Fact
    ensures value { result ≡ attached came }
    ensures plain { IsCountless Move.Attach result }
{
    match came {
        Some(Ok(())) => Fact::Came,
        Some(Err(Failed)) | None => Fact::Away,
    }
}

// What is told of a watch.
fn watched(stays: Result<Presence, Failed>) -> Fact
    ensures value { result ≡ watched stays }
    ensures plain { IsCountless Move.Watch result }
{
    match stays {
        Ok(Presence::Stays) => Fact::Quiet,
        Ok(Presence::Leaves) => Fact::Ended,
        Err(Failed) => Fact::Failed,
    }
}

// A turn of this move, of which neither bytes nor items came.
fn tell(desk: &mut Desk, go: Move, see: &Look, fact: Fact)
    requires go { mind_next desk.old.tale.mind see.now ≡ go }
    requires plain { IsCountless go fact }
    ensures { desk.new ≡ behind desk.old see.now fact }
{
    desk.told(see, fact);
}

fn accept<K: Callers>(desk: &mut Desk, callers: &mut K, see: &Look)
    requires { mind_next desk.old.tale.mind see.now ≡ Move.Accept }
    ensures { Accepts see.now desk.old desk.new (K.visits callers.old) (K.visits callers.new) }
{
    let came = callers.accept();
    tell(desk, Move::Accept, see, knocked(came));
}

// Dials a port, if there is one.
fn dial_if<K: Callers>(callers: &mut K, port: Option<u16>) -> Option<Result<(), Failed>>
    ensures { dialled_if (K.visits callers.old) port result (K.visits callers.new) }
{
    match port {
        Some(port) => Some(callers.dial(port)),
        None => None,
    }
}

fn dial<K: Callers>(desk: &mut Desk, callers: &mut K, see: &Look, port: Option<u16>)
    requires { mind_next desk.old.tale.mind see.now ≡ Move.Dial }
    ensures { Dials dialled port see.now desk.old desk.new (K.visits callers.old) (K.visits callers.new) }
{
    let came = dial_if(callers, port);
    tell(desk, Move::Dial, see, dialled(came));
}

fn attach<K: Callers>(desk: &mut Desk, callers: &mut K, see: &Look, port: Option<u16>)
    requires { mind_next desk.old.tale.mind see.now ≡ Move.Attach }
    ensures { Dials attached port see.now desk.old desk.new (K.visits callers.old) (K.visits callers.new) }
{
    let came = dial_if(callers, port);
    tell(desk, Move::Attach, see, attached(came));
}

// Before such a move of a line with a caller, who else knocks is turned away.
fn turn_away<K: Callers>(desk: &Desk, callers: &mut K, go: Move)
    ensures { K.visits callers.new ≡ K.visits callers.old }
{
    let stays = matches!(go, Move::Read | Move::Write | Move::Watch | Move::Rest);
    if stays && desk.has_caller() {
        let _ = callers.turn_away();
    }
}

fn write<K: Callers>(desk: &mut Desk, callers: &mut K, see: &Look)
    requires { mind_next desk.old.tale.mind see.now ≡ Move.Write }
    ensures { Writes see.now desk.old desk.new (K.visits callers.old) (K.visits callers.new) }
{
    let piece = first(desk.due(), PIECE_ITEMS);
    let wrote = write_piece(callers, piece);
    desk.wrote(see, wrote);
}

fn watch<K: Callers>(desk: &mut Desk, callers: &mut K, see: &Look)
    requires { mind_next desk.old.tale.mind see.now ≡ Move.Watch }
    ensures { Watches see.now desk.old desk.new (K.visits callers.old) (K.visits callers.new) }
{
    let stays = callers.watch();
    tell(desk, Move::Watch, see, watched(stays));
}

fn hang_up<K: Callers>(desk: &mut Desk, callers: &mut K, see: &Look)
    requires { mind_next desk.old.tale.mind see.now ≡ Move.HangUp }
    ensures { HangsUp see.now desk.old desk.new (K.visits callers.old) (K.visits callers.new) }
{
    callers.hang_up();
    tell(desk, Move::HangUp, see, Fact::HungUp);
}

// Does a move without an event, and tells what came of it.
fn done<K: Callers>(desk: &mut Desk, callers: &mut K, go: Move, see: &Look, port: Option<u16>)
    requires go { mind_next desk.old.tale.mind see.now ≡ go }
    requires event { has_event go ≡ false }
    ensures { Acted go see.now port desk.old desk.new (K.visits callers.old) (K.visits callers.new) }
{
    match go {
        Move::Accept => accept(desk, callers, see),
        Move::Dial => dial(desk, callers, see, port),
        Move::Attach => attach(desk, callers, see, port),
        Move::Read => desk.read(callers, see),
        Move::Write => write(desk, callers, see),
        Move::Watch => watch(desk, callers, see),
        Move::HangUp => hang_up(desk, callers, see),
        Move::Join => tell(desk, go, see, Fact::Joined),
        Move::Lose => tell(desk, go, see, Fact::Lost),
        Move::Rest => tell(desk, go, see, Fact::Rested),
        Move::Finish => tell(desk, go, see, Fact::Finished),
        _ => unreachable!(),
    }
}

/// Does a move without an event outside the lock, and tells what came of it, with the look that the move was made at. Before a
/// read, a write, a watch or a rest of a line with a caller, who else knocks at its port is turned away.
pub fn act<K: Callers>(desk: &mut Desk, callers: &mut K, go: Move, see: &Look, port: Option<u16>)
    requires go { mind_next desk.old.tale.mind see.now ≡ go }
    requires event { has_event go ≡ false }
    ensures acted { Acted go see.now port desk.old desk.new (K.visits callers.old) (K.visits callers.new) }
    ensures tied { Tied desk.old (K.visits callers.old) → Tied desk.new (K.visits callers.new) }
    ensures went { (n : ℕ) → WentOn desk.old desk.new n n }
    ensures rose { (n : ℕ) → RoseAs desk.old desk.new n n }
    ensures finished { go ≡ Move.Finish → desk.new.tale.mind.phase ≡ Phase.Finished }
{
    desk.lives();
    turn_away(desk, callers, go);
    done(desk, callers, go, see, port);
}

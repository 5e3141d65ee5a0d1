//! A client that is served.

ghost use Rattle.std.specs.Prelude.{◌≡◌, ◌≢◌, ℕ, ◌≤◌, ◌<◌, length, OnOk, Err, IfOk, IfErr};
ghost use Rattle.lat_outside.specs.Causes.{HasCause, Rose};
ghost use Rattle.lat_control.specs.Answered.{Answered, IsTold};
ghost use Rattle.lat_control.specs.Clients.{IsFresh};
ghost use Rattle.lat_control.specs.Lines.{lines_of};
ghost use Rattle.lat_control.specs.Sessions.{IsServed};

use crate::answers::Answers;
use crate::client::Client;
use crate::farewell::{Farewell, Gone};
use crate::session::Session;
use lat_outside::{CALLER_BYTES, CallerGot, Failed};
use std::alloc::Global;
use std::marker::{Model, PhantomData};

/// A client that is served. Whenever nobody is in the middle of a call, what was written to it and what it is owed are the answers
/// to all lines that it gave, each once, in order.
#[derive(Drop)]
pub struct Seat<C: Client, A: Answers> {
    client: C,
    session: Session,
    ended: bool,
    moved: bool,
    of: PhantomData<A>,
}

impl<C: Client, A: Answers> Model for Seat<C, A> {
    ghost use Rattle.std.specs.Borrow.{ftrue};
    ghost use Rattle.lat_control.specs.Seats.{SeatView};
    ghost use Rattle.lat_control.specs.Sessions.{IsServed};

    ghost Value = { SeatView C };

    ghost view = { λ a. record { client = a.client; talk = a.session; ended = a.ended; moved = a.moved } };

    ghost invariant = { λ a. IsServed A.says (C.given a.client) (C.written a.client) a.session };
}

// Reads once, where the client hasn't ended, and answers the lines that have come.
#[tactic(auto, using(crate::proofs::Served::served_more, crate::proofs::Served::told_before, crate::proofs::Served::told_now))]
fn hear<C: Client, A: Answers>(
    alloc: Global,
    client: &mut C,
    session: &mut Session,
    ended: bool,
    answers: &mut A,
) -> Result<CallerGot, Farewell>
    requires served { IsServed A.says (C.given client.old) (C.written client.old) session.old }
    ensures served { OnOk result (IsServed A.says (C.given client.new) (C.written client.new) session.new) }
    ensures told { IsTold A.says (C.given client.new) (C.written client.new) }
    ensures later { C.faults client.old ≤ C.faults client.new }
    ensures failed { result ≡ Err Farewell.Failed → Rose (C.faults client.old) (C.faults client.new) }
    ensures full { result ≡ Err Farewell.Full → 1048576 < length session.new.owed }
    ensures stays { result ≢ Err Farewell.Ended }
{
    if ended {
        return Ok(CallerGot::Ended);
    }
    let mut buf = [0; CALLER_BYTES];
    let Ok(got) = client.read(&mut buf) else {
        return Err(Farewell::Failed);
    };
    if let CallerGot::Bytes(count) = got {
        session.feed(alloc, answers, &buf[..count])?;
    }
    Ok(got)
}

// Writes once of what the client is owed, and tells how many bytes were taken.
#[tactic(auto, using(crate::proofs::Served::served_wrote, crate::proofs::Served::served_same))]
fn tell<C: Client, A: Answers>(client: &mut C, session: &mut Session) -> Result<usize, Failed>
    requires served { IsServed A.says (C.given client.old) (C.written client.old) session.old }
    ensures served { IsServed A.says (C.given client.new) (C.written client.new) session.new }
    ensures given { C.given client.new ≡ C.given client.old }
    ensures cause { HasCause (C.faults client.old) (C.faults client.new) result }
{
    if session.owed().is_empty() {
        return Ok(0);
    }
    let count = client.write(session.owed())?;
    session.wrote(count);
    Ok(count)
}

// What came of a turn.
#[derive(Clone, Copy)]
struct Turn {
    ended: bool,
    moved: bool,
}

// One turn: what came is read and answered, and then it is written once.
#[tactic(auto, using(crate::proofs::Served::told_now, crate::proofs::Served::all_told))]
fn serve<C: Client, A: Answers>(
    alloc: Global,
    client: &mut C,
    session: &mut Session,
    ended: bool,
    answers: &mut A,
) -> Result<Turn, Farewell>
    requires served { IsServed A.says (C.given client.old) (C.written client.old) session.old }
    ensures served { OnOk result (IsServed A.says (C.given client.new) (C.written client.new) session.new) }
    ensures told { IsTold A.says (C.given client.new) (C.written client.new) }
    ensures ended { result ≡ Err Farewell.Ended → Answered A.says (lines_of (C.given client.new)) (C.written client.new) }
    ensures failed { result ≡ Err Farewell.Failed → Rose (C.faults client.old) (C.faults client.new) }
    ensures full { result ≡ Err Farewell.Full → 1048576 < length session.new.owed }
{
    let got = hear(alloc, client, session, ended, answers)?;
    let Ok(count) = tell::<C, A>(client, session) else {
        return Err(Farewell::Failed);
    };
    let ended = got == CallerGot::Ended;
    if ended && session.owed().is_empty() {
        return Err(Farewell::Ended);
    }
    Ok(Turn {
        ended,
        moved: count > 0 || matches!(got, CallerGot::Bytes(_)),
    })
}

impl<C: Client, A: Answers> Seat<C, A> {
    /// A client who has just come.
    pub fn make(alloc: Global, client: C) -> Seat<C, A>
        requires { IsFresh (C.given client) (C.written client) }
        ensures { result.client ≡ client }
    {
        Seat {
            client,
            session: Session::make(alloc),
            ended: false,
            moved: true,
            of: PhantomData,
        }
    }

    /// Whether its last turn moved a byte.
    pub fn moved(&self) -> bool
        ensures { result ≡ self.now.moved }
    {
        self.moved
    }

    /// One turn: what came is read, once, and answered; of what the client is owed as much is written as it takes in one write. It
    /// goes once it gives no more and is owed nothing; where a read or a write fails; where it is owed more than 1 MiB; and where
    /// no memory is found for an answer.
    pub fn turn(self, alloc: Global, answers: &mut A) -> Result<Seat<C, A>, Gone<C>>
        ensures told { IfErr result (λ gone. IsTold A.says (C.given gone.client) (C.written gone.client)) }
        ensures ended { IfErr result (λ gone. gone.why ≡ Farewell.Ended →
            Answered A.says (lines_of (C.given gone.client)) (C.written gone.client)) }
        ensures failed { IfErr result (λ gone. gone.why ≡ Farewell.Failed →
            Rose (C.faults self.client) (C.faults gone.client)) }
        ensures full { IfErr result (λ gone. gone.why ≡ Farewell.Full → 1048576 < gone.owed) }
    {
        let Seat {
            mut client,
            mut session,
            ended,
            ..
        } = self;
        match serve(alloc, &mut client, &mut session, ended, answers) {
            Ok(turn) => Ok(Seat {
                client,
                session,
                ended: turn.ended,
                moved: turn.moved,
                of: PhantomData,
            }),
            Err(why) => Err(Gone::new(client, why, &session)),
        }
    }

    /// Its last write: of what the client is owed as much is written as it takes in one write.
    #[tactic(auto, using(crate::proofs::Served::told_now))]
    pub fn leave(self) -> C
        ensures told { IsTold A.says (C.given result) (C.written result) }
        ensures given { C.given result ≡ C.given self.client }
    {
        let Seat {
            mut client,
            mut session,
            ..
        } = self;
        let _ = tell::<C, A>(&mut client, &mut session);
        client
    }
}

//! Jobs from their clients' coming to their end, by the tables of "Print jobs" in docs/PROTOCOL.md.

use crate::fact::{Fact, Move};
use crate::look::{Look, StatusLook};
use crate::mind::JobMind;
use crate::queue::JobQueue;
use lat_base::{Kept, LineLook, SessionEnd, SessionState};
use std::process::Abort;

// Nothing has come by this moment.
fn nothing(moment: u64) -> Look {
    Look {
        request: None,
        line: LineLook {
            newest: 0,
            state: SessionState::Free,
            waiting: 0,
            room: 0,
            end: None,
        },
        broken: false,
        status: None,
        stopping: false,
        moment,
    }
}

// The request of number 7 was answered so.
fn told(moment: u64, kept: Kept) -> Look {
    Look {
        status: Some(StatusLook {
            request: 7,
            kept,
            heard: moment,
        }),
        ..nothing(moment)
    }
}

// Session 3 of the core has come under number 7.
fn shown(state: SessionState, end: Option<SessionEnd>) -> Look {
    Look {
        request: Some(7),
        line: LineLook {
            newest: 3,
            state,
            waiting: 0,
            room: 100,
            end,
        },
        ..told(9_000, Kept::Granted)
    }
}

// The mind makes this move at this look, and is told this of it.
fn turn(rt: &impl Abort, mind: &mut JobMind, see: &Look, due: Move, fact: Fact) {
    assert!(rt; mind.next(see, true) == due);
    mind.told(see, fact);
}

// A mind whose job has joined its session.
fn joined(rt: &impl Abort) -> JobMind {
    let mut mind = JobMind::make();
    turn(rt, &mut mind, &nothing(1_000), Move::Ask, Fact::Asked(7));
    turn(rt, &mut mind, &nothing(5_999), Move::Watch, Fact::Quiet);
    turn(rt, &mut mind, &nothing(6_000), Move::Repeat, Fact::Repeated);
    let see = told(6_500, Kept::Waiting(2));
    turn(rt, &mut mind, &see, Move::Watch, Fact::Quiet);
    assert!(rt; mind.has_place());
    let see = shown(SessionState::Live, None);
    turn(rt, &mut mind, &see, Move::Join, Fact::Joined);
    mind
}

#[test]
fn a_job_is_printed(rt: HostRuntime) {
    let mut mind = joined(&rt);
    let live = shown(SessionState::Live, None);
    turn(&rt, &mut mind, &live, Move::Read, Fact::Read(10));
    turn(&rt, &mut mind, &live, Move::Put, Fact::Put(4));
    turn(&rt, &mut mind, &live, Move::Put, Fact::Put(6));
    turn(&rt, &mut mind, &live, Move::Read, Fact::Ended);
    turn(&rt, &mut mind, &live, Move::Close, Fact::Closed);
    let closing = shown(SessionState::Closing, None);
    turn(&rt, &mut mind, &closing, Move::Rest, Fact::Rested);
    let over = shown(SessionState::Free, Some(SessionEnd::Closed));
    turn(&rt, &mut mind, &over, Move::HangUp, Fact::HungUp);
    assert!(&rt; mind.next(&over, true) == Move::Stop);
}

#[test]
fn a_job_fails_with_its_device(rt: HostRuntime) {
    let mut mind = joined(&rt);
    let live = shown(SessionState::Live, None);
    turn(&rt, &mut mind, &live, Move::Read, Fact::Read(10));
    let broken = Look {
        broken: true,
        ..live
    };
    turn(&rt, &mut mind, &broken, Move::Close, Fact::Closed);
    let over = shown(SessionState::Free, Some(SessionEnd::Closed));
    turn(&rt, &mut mind, &over, Move::Reset, Fact::Reset);
    assert!(&rt; mind.next(&over, true) == Move::Stop);
}

#[test]
fn a_job_without_a_place_waits_longer(rt: HostRuntime) {
    let mut mind = JobMind::make();
    let tries: [(u64, u64); 8] = [
        (1_000, 6_000),
        (6_000, 16_000),
        (16_000, 36_000),
        (36_000, 76_000),
        (76_000, 156_000),
        (156_000, 316_000),
        (316_000, 616_000),
        (616_000, 916_000),
    ];
    for (asked, again) in tries {
        turn(&rt, &mut mind, &nothing(asked), Move::Ask, Fact::Asked(7));
        let full = told(asked, Kept::QueueFull);
        turn(&rt, &mut mind, &full, Move::Lose, Fact::Lost);
        let early = nothing(again.saturating_sub(1));
        assert!(&rt; mind.next(&early, true) == Move::Watch);
    }
    turn(&rt, &mut mind, &nothing(916_000), Move::Ask, Fact::Asked(7));
    let silent = nothing(976_000);
    turn(&rt, &mut mind, &silent, Move::Cancel, Fact::Cancelled);
    assert!(&rt; mind.next(&silent, true) == Move::Watch);
}

#[test]
fn jobs_ask_in_turn(rt: HostRuntime) {
    let mut queue = JobQueue::make();
    for _ in 0..9 {
        queue.came();
    }
    assert!(&rt; queue.len() == 8 && !queue.has_room());
    assert!(&rt; queue.next(1, &nothing(0)) == Move::Watch);
    queue.told(0, &nothing(0), Fact::Asked(7));
    assert!(&rt; queue.next(1, &nothing(9)) == Move::Watch);
    queue.told(0, &told(9, Kept::Waiting(1)), Fact::Quiet);
    assert!(&rt; queue.next(1, &nothing(9)) == Move::Ask);
    assert!(&rt; queue.next(2, &nothing(9)) == Move::Watch);
    queue.told(0, &told(10, Kept::Waiting(1)), Fact::Failed);
    assert!(&rt; queue.next(0, &told(11, Kept::Waiting(1))) == Move::Cancel);
    queue.told(0, &nothing(12), Fact::Cancelled);
    assert!(&rt; queue.next(0, &nothing(12)) == Move::Reset);
    queue.told(0, &nothing(12), Fact::Reset);
    assert!(&rt; queue.len() > 0);
    queue.leave(0);
    assert!(&rt; queue.next(0, &nothing(13)) == Move::Ask);
    assert!(&rt; queue.next(7, &nothing(13)) == Move::Stop);
}

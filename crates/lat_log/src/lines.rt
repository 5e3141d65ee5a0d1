//! What is new of the sessions of lines, and of the requests that they answer.

ghost use Rattle.std.specs.Prelude.{◌≡◌, ◌++◌, map, OnOk, IfOk};
ghost use Rattle.std.specs.List.{flat_map};
ghost use Rattle.lat_log.specs.LineNews.{begun, carried, end_news, ended, first_news, hidden_news, left_news, line_news, line_next, live_news, over_news, reached_news, reached_of, request_news, session_news, session_now, session_of, unseen_news};

use crate::entry::{Entry, Flow, Over, Request, RequestNews, Session, SessionNews};
use crate::news::News;
use crate::seen::{LineSeen, LineSight, Reached, SessionSeen, Side};
use lat_base::{Correspondent, LineLook, Memory, SessionEnd, SessionState};
use std::alloc::Global;

// How far a session came, as it is shown.
fn reached_of(look: &LineLook) -> Reached
    ensures { result ≡ reached_of look.now }
{
    match (look.end, look.state) {
        (Some(_), _) => Reached::Over,
        (None, SessionState::Live | SessionState::Closing | SessionState::Left) => Reached::Live,
        (None, _) => Reached::Waiting,
    }
}

// What a session carried of what its line did.
fn carried(began: Flow, flow: Flow) -> Flow
    ensures { result ≡ carried began flow }
{
    Flow {
        put: flow.put.saturating_sub(began.put),
        took: flow.took.saturating_sub(began.took),
    }
}

// What the line had carried when its session was first seen: now, where that is another one than was seen last.
fn begun(seen: Option<SessionSeen>, number: u64, flow: Flow) -> Flow
    ensures { result ≡ begun seen number flow }
{
    match seen {
        Some(session) if session.number == number => session.began,
        _ => flow,
    }
}

// The session that the line has now.
fn session_now(sight: &LineSight) -> Option<SessionSeen>
    ensures { result ≡ session_now sight.now }
{
    match sight.with {
        Some(with) => Some(SessionSeen {
            number: sight.look.newest,
            with,
            reached: reached_of(&sight.look),
            began: begun(sight.seen, sight.look.newest, sight.flow),
        }),
        None => None,
    }
}

/// The lines, as they are seen now.
pub fn next_of(alloc: Global, sights: &[LineSight]) -> Result<Vec<LineSeen>, Memory>
    ensures { IfOk result (λ v. v.items ≡ map line_next sights.now) }
{
    let mut list = Vec::with_capacity(alloc, sights.len())?;
    for sight in sights {
        list.push(line_next(sight))?;
    }
    Ok(list)
}

fn line_next(sight: &LineSight) -> LineSeen
    ensures { result ≡ line_next sight.now }
{
    LineSeen {
        line: sight.line,
        session: session_now(sight),
    }
}

fn session_of(seen: &SessionSeen) -> Session
    ensures { result ≡ session_of seen.now }
{
    Session {
        number: seen.number,
        service: seen.with.service,
        peer: seen.with.peer,
    }
}

// Adds what is new of the request that a session answers, where it answers one.
fn request_onto(news: &mut News, with: &Correspondent, what: RequestNews) -> Result<(), Memory>
    ensures { OnOk result (news.new ≡ news.old ++ request_news with.now what) }
{
    if let Some(id) = with.request {
        let request = Request {
            id,
            service: with.service,
            address: with.peer,
        };
        news.push(Entry::Request {
            request,
            news: what,
        })?;
    }
    Ok(())
}

// What is said of a session that ended.
fn ended(end: SessionEnd, flow: Flow) -> SessionNews
    ensures { result ≡ ended end flow }
{
    match end {
        SessionEnd::Rejected(reason) => SessionNews::Rejected(reason),
        SessionEnd::Closed => SessionNews::Ended {
            over: Over::Closed,
            flow,
        },
        SessionEnd::Circuit(reason) => SessionNews::Ended {
            over: Over::Circuit(reason),
            flow,
        },
    }
}

// Adds how a session ended, and that the request is done that it answered.
fn over_onto(
    news: &mut News,
    line: u8,
    session: &SessionSeen,
    what: SessionNews,
) -> Result<(), Memory>
    ensures { OnOk result (news.new ≡ news.old ++ over_news line session.now what) }
{
    news.push(Entry::Session {
        line,
        session: session_of(session),
        news: what,
    })?;
    request_onto(news, &session.with, RequestNews::Done(line))
}

// Adds that a session is live, where it wasn't answered before.
fn live_onto(news: &mut News, line: u8, was: Reached, session: &SessionSeen) -> Result<(), Memory>
    ensures { OnOk result (news.new ≡ news.old ++ live_news line was session.now) }
{
    if let (Reached::Waiting, Reached::Live) = (was, session.reached) {
        news.push(Entry::Session {
            line,
            session: session_of(session),
            news: SessionNews::Live,
        })?;
    }
    Ok(())
}

// Adds how a session ended, where it wasn't over before.
fn end_onto(
    news: &mut News,
    sight: &LineSight,
    was: Reached,
    session: &SessionSeen,
) -> Result<(), Memory>
    ensures { OnOk result (news.new ≡ news.old ++ end_news sight.now was session.now) }
{
    match (was, sight.look.end) {
        (Reached::Over, _) | (_, None) => Ok(()),
        (_, Some(end)) => {
            let what = ended(end, carried(session.began, sight.flow));
            over_onto(news, sight.line, session, what)
        }
    }
}

// Adds how far a session came since it was so far.
fn reached_onto(
    news: &mut News,
    sight: &LineSight,
    was: Reached,
    session: &SessionSeen,
) -> Result<(), Memory>
    ensures { OnOk result (news.new ≡ news.old ++ reached_news sight.now was session.now) }
{
    live_onto(news, sight.line, was, session)?;
    end_onto(news, sight, was, session)
}

// Adds that a session of a switch isn't shown any more.
fn hidden_onto(news: &mut News, line: u8, session: &SessionSeen) -> Result<(), Memory>
    ensures { OnOk result (news.new ≡ news.old ++ hidden_news line session.now) }
{
    news.push(Entry::Session {
        line,
        session: session_of(session),
        news: SessionNews::Hidden,
    })
}

// Adds that a session ended before it was seen how.
fn unseen_onto(news: &mut News, sight: &LineSight, session: &SessionSeen) -> Result<(), Memory>
    ensures { OnOk result (news.new ≡ news.old ++ unseen_news sight.now session.now) }
{
    let what = SessionNews::Ended {
        over: Over::Unseen,
        flow: carried(session.began, sight.flow),
    };
    over_onto(news, sight.line, session, what)
}

// Adds that a session that wasn't over has given its place to another one.
fn left_onto(
    news: &mut News,
    side: Side,
    sight: &LineSight,
    session: &SessionSeen,
) -> Result<(), Memory>
    ensures { OnOk result (news.new ≡ news.old ++ left_news side sight.now session.now) }
{
    match (session.reached, side) {
        (Reached::Over, _) => Ok(()),
        (_, Side::Switch) => hidden_onto(news, sight.line, session),
        (_, _) => unseen_onto(news, sight, session),
    }
}

// Adds what is new of a session that wasn't seen before.
fn first_onto(news: &mut News, sight: &LineSight, session: &SessionSeen) -> Result<(), Memory>
    ensures { OnOk result (news.new ≡ news.old ++ first_news sight.now session.now) }
{
    request_onto(news, &session.with, RequestNews::Granted(sight.line))?;
    reached_onto(news, sight, Reached::Waiting, session)
}

// Adds what is new of a line that has a session.
fn session_onto(
    news: &mut News,
    side: Side,
    sight: &LineSight,
    session: &SessionSeen,
) -> Result<(), Memory>
    ensures { OnOk result (news.new ≡ news.old
        ++ session_news side sight.now sight.now.seen session.now) }
{
    match &sight.seen {
        Some(seen) if seen.number == session.number => reached_onto(
            news,
            sight,
            seen.reached,
            session,
        ),
        Some(seen) => {
            left_onto(news, side, sight, seen)?;
            first_onto(news, sight, session)
        }
        None => first_onto(news, sight, session),
    }
}

// Adds what is new of a line.
fn line_onto(news: &mut News, side: Side, sight: &LineSight) -> Result<(), Memory>
    ensures { OnOk result (news.new ≡ news.old ++ line_news side sight.now) }
{
    match session_now(sight) {
        Some(session) => session_onto(news, side, sight, &session),
        None => Ok(()),
    }
}

/// Adds what is new of the lines.
pub fn lines_onto(news: &mut News, side: Side, sights: &[LineSight]) -> Result<(), Memory>
    ensures { OnOk result (news.new ≡ news.old ++ flat_map (line_news side) sights.now) }
{
    for sight in sights {
        line_onto(news, side, sight)?;
    }
    Ok(())
}

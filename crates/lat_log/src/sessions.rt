//! The words of callers, sessions and requests.

ghost use Rattle.std.specs.Prelude.{◌≡◌, ◌++◌, OnOk, string_bytes};
ghost use Rattle.lat_log.specs.Words.{asked_words, caller_words, ended_words, request_news_words, request_words, session_news_words, session_words, of_session_words};

use crate::entry::{CallerNews, Flow, Over, Request, RequestNews, Session, SessionNews};
use crate::why::{over_onto, session_reason_onto};
use lat_text::{address_onto, name_onto};
use std::alloc::AllocError;

/// Adds what is new of a line's caller.
pub fn caller_onto(text: &mut String, line: u8, news: CallerNews) -> Result<(), AllocError>
    ensures { OnOk result (string_bytes text.new ≡ string_bytes text.old ++ caller_words line news) }
{
    match news {
        CallerNews::Came => write!(text, "line {line} caller comes"),
        CallerNews::Left => write!(text, "line {line} caller leaves"),
    }
}

fn of_session_onto(text: &mut String, line: u8, session: &Session) -> Result<(), AllocError>
    ensures { OnOk result (string_bytes text.new
        ≡ string_bytes text.old ++ of_session_words line session.now) }
{
    let number = session.number;
    write!(text, "line {line} session {number} for ")?;
    name_onto(text, &session.service)?;
    text.push_str(" at ")?;
    address_onto(text, session.peer)
}

fn ended_onto(text: &mut String, over: Over, flow: Flow) -> Result<(), AllocError>
    ensures { OnOk result (string_bytes text.new ≡ string_bytes text.old ++ ended_words over flow) }
{
    let (put, took) = (flow.put, flow.took);
    write!(text, " ended put {put} took {took}: ")?;
    over_onto(text, over)
}

fn session_news_onto(text: &mut String, news: SessionNews) -> Result<(), AllocError>
    ensures { OnOk result (string_bytes text.new ≡ string_bytes text.old ++ session_news_words news) }
{
    match news {
        SessionNews::Live => text.push_str(" live"),
        SessionNews::Rejected(reason) => {
            text.push_str(" rejected: ")?;
            session_reason_onto(text, reason)
        }
        SessionNews::Ended { over, flow } => ended_onto(text, over, flow),
        SessionNews::Hidden => text.push_str(" shown no more"),
    }
}

/// Adds what is new of a line's session.
pub fn session_onto(
    text: &mut String,
    line: u8,
    session: &Session,
    news: SessionNews,
) -> Result<(), AllocError>
    ensures { OnOk result (string_bytes text.new
        ≡ string_bytes text.old ++ session_words line session.now news) }
{
    of_session_onto(text, line, session)?;
    session_news_onto(text, news)
}

fn asked_onto(text: &mut String, request: &Request) -> Result<(), AllocError>
    ensures { OnOk result (string_bytes text.new ≡ string_bytes text.old ++ asked_words request.now) }
{
    let id = request.id;
    write!(text, "request {id} of ")?;
    address_onto(text, request.address)?;
    text.push_str(" for ")?;
    name_onto(text, &request.service)
}

fn request_news_onto(text: &mut String, news: RequestNews) -> Result<(), AllocError>
    ensures { OnOk result (string_bytes text.new ≡ string_bytes text.old ++ request_news_words news) }
{
    match news {
        RequestNews::Waits(place) => write!(text, " waits at {place}"),
        RequestNews::Granted(line) => write!(text, " granted to line {line}"),
        RequestNews::Done(line) => write!(text, " done at line {line}"),
        RequestNews::Cancelled => text.push_str(" cancelled"),
    }
}

/// Adds what is new of a request.
pub fn request_onto(
    text: &mut String,
    request: &Request,
    news: RequestNews,
) -> Result<(), AllocError>
    ensures { OnOk result (string_bytes text.new
        ≡ string_bytes text.old ++ request_words request.now news) }
{
    asked_onto(text, request)?;
    request_news_onto(text, news)
}

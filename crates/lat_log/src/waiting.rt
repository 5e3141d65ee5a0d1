//! What is new of the requests that wait.

ghost use Rattle.std.specs.Prelude.{◌≡◌, ◌++◌, nat_eq, OnOk};
ghost use Rattle.std.specs.List.{flat_map, list_any};
ghost use Rattle.lat_log.specs.WaitingNews.{came, grants, is_granted, is_same, request_of, waiting_news, waits_in, went};

use crate::entry::{Entry, Request, RequestNews};
use crate::news::News;
use crate::seen::Waiting;
use lat_base::Memory;

// Whether the two are one request.
fn is_same(a: &Waiting, b: &Waiting) -> bool
    ensures { result ≡ is_same a.now b.now }
{
    a.request == b.request && a.from == b.from && a.service == b.service
}

fn waits_in(list: &[Waiting], request: &Waiting) -> bool
    ensures { result ≡ waits_in list.now request.now }
{
    list.iter().any(|other| is_same(request, other))
}

// Whether an entry says that this request is granted.
fn grants(request: &Waiting, entry: &Entry) -> bool
    ensures { result ≡ grants request.now entry.now }
{
    match entry {
        Entry::Request {
            request: granted,
            news: RequestNews::Granted(_),
        } => granted.id == request.request && granted.address == request.from,
        _ => false,
    }
}

fn is_granted(news: &[Entry], request: &Waiting) -> bool
    ensures { result ≡ is_granted news.now request.now }
{
    news.iter().any(|entry| grants(request, entry))
}

fn request_of(waiting: &Waiting) -> Request
    ensures { result ≡ request_of waiting.now }
{
    Request {
        id: waiting.request,
        service: waiting.service,
        address: waiting.from,
    }
}

// Adds that a request waits, where it didn't wait before.
fn came_onto(news: &mut News, old: &[Waiting], request: &Waiting) -> Result<(), Memory>
    ensures { OnOk result (news.new ≡ news.old ++ came old.now request.now) }
{
    if !waits_in(old, request) {
        news.push(Entry::Request {
            request: request_of(request),
            news: RequestNews::Waits(request.place),
        })?;
    }
    Ok(())
}

// Adds that a request waits no more, where that is so and it wasn't granted.
#[tactic(auto, unfolding(crate::specs::WaitingNews::went))]
fn went_onto(
    news: &mut News,
    granted: &[Entry],
    now: &[Waiting],
    request: &Waiting,
) -> Result<(), Memory>
    ensures { OnOk result (news.new ≡ news.old ++ went granted.now now.now request.now) }
{
    if !waits_in(now, request) && !is_granted(granted, request) {
        news.push(Entry::Request {
            request: request_of(request),
            news: RequestNews::Cancelled,
        })?;
    }
    Ok(())
}

// Adds which requests wait that didn't wait before.
fn all_came(news: &mut News, old: &[Waiting], now: &[Waiting]) -> Result<(), Memory>
    ensures { OnOk result (news.new ≡ news.old ++ flat_map (came old.now) now.now) }
{
    for request in now {
        came_onto(news, old, request)?;
    }
    Ok(())
}

// Adds which requests wait no more and weren't granted.
fn all_went(
    news: &mut News,
    granted: &[Entry],
    old: &[Waiting],
    now: &[Waiting],
) -> Result<(), Memory>
    ensures { OnOk result (news.new ≡ news.old
        ++ flat_map (went granted.now now.now) old.now) }
{
    for request in old {
        went_onto(news, granted, now, request)?;
    }
    Ok(())
}

/// Adds which requests wait that didn't, and which wait no more without a grant among these entries.
pub fn waiting_onto(
    news: &mut News,
    granted: &[Entry],
    old: &[Waiting],
    now: &[Waiting],
) -> Result<(), Memory>
    ensures { OnOk result (news.new ≡ news.old
        ++ waiting_news granted.now old.now now.now) }
{
    all_came(news, old, now)?;
    all_went(news, granted, old, now)
}

//! What is new of the services that nodes announced.

ghost use Rattle.std.specs.Prelude.{◌≡◌, ◌++◌, nat_eq, find, OnOk};
ghost use Rattle.std.specs.List.{flat_map, list_any};
ghost use Rattle.std.specs.Option.{option_copied};
ghost use Rattle.lat_log.specs.ServiceNews.{came, found, is_in, is_same, said, services_news, went};

use crate::entry::{Entry, Offered, OfferedNews};
use crate::news::News;
use lat_base::Memory;

// Whether the two are one service of one node.
fn is_same(a: &Offered, b: &Offered) -> bool
    ensures { result ≡ is_same a.now b.now }
{
    a.service == b.service && a.node == b.node
}

fn is_in(list: &[Offered], service: &Offered) -> bool
    ensures { result ≡ is_in list.now service.now }
{
    list.iter().any(|other| is_same(service, other))
}

fn place_of<'a>(list: &'a [Offered], service: &Offered) -> Option<&'a Offered>
    ensures { option_copied result ≡ found list.now service.now }
{
    list.iter().find(|other| is_same(service, other))
}

fn found(list: &[Offered], service: &Offered) -> Option<Offered>
    ensures { result ≡ found list.now service.now }
{
    place_of(list, service).copied()
}

// What is new of a service that was this one, if it was there.
fn said(was: Option<Offered>, now: &Offered) -> Option<OfferedNews>
    ensures { result ≡ said was now.now }
{
    match was {
        None => Some(OfferedNews::Appeared),
        Some(was) if was.rating == now.rating && was.address == now.address => None,
        Some(_) => Some(OfferedNews::Changed),
    }
}

// Adds what is new of a service that is announced. Of a service that a node lists twice the first entry counts.
fn came_onto(
    news: &mut News,
    old: &[Offered],
    now: &[Offered],
    service: &Offered,
) -> Result<(), Memory>
    ensures { OnOk result (news.new ≡ news.old ++ came old.now now.now service.now) }
{
    let Some(first) = found(now, service) else {
        return Ok(());
    };
    if let Some(what) = said(found(old, service), &first) {
        news.push(Entry::Service {
            offered: first,
            news: what,
        })?;
    }
    Ok(())
}

// Adds that a service is announced no more, where that is so.
fn went_onto(news: &mut News, now: &[Offered], service: &Offered) -> Result<(), Memory>
    ensures { OnOk result (news.new ≡ news.old ++ went now.now service.now) }
{
    if !is_in(now, service) {
        news.push(Entry::Service {
            offered: *service,
            news: OfferedNews::Lost,
        })?;
    }
    Ok(())
}

fn all_came(news: &mut News, old: &[Offered], now: &[Offered]) -> Result<(), Memory>
    ensures { OnOk result (news.new ≡ news.old ++ flat_map (came old.now now.now) now.now) }
{
    for service in now {
        came_onto(news, old, now, service)?;
    }
    Ok(())
}

fn all_went(news: &mut News, old: &[Offered], now: &[Offered]) -> Result<(), Memory>
    ensures { OnOk result (news.new ≡ news.old ++ flat_map (went now.now) old.now) }
{
    for service in old {
        went_onto(news, now, service)?;
    }
    Ok(())
}

/// Adds which services are lost, and which appeared or changed, between two sights of them.
pub fn services_onto(news: &mut News, old: &[Offered], now: &[Offered]) -> Result<(), Memory>
    ensures { OnOk result (news.new ≡ news.old ++ services_news old.now now.now) }
{
    all_went(news, old, now)?;
    all_came(news, old, now)
}

//! What is new of what runs out.

ghost use Rattle.std.specs.Prelude.{◌≡◌, ◌++◌, OnOk};
ghost use Rattle.lat_log.specs.LeftNews.{are_few, ids_news, left_news, left_of, records_news, unseen, were_few};

use crate::entry::Entry;
use crate::news::News;
use lat_base::{Core, Memory};

/// At so many the log says how many are left.
const FEW: u32 = 1000;

/// How much a core has left of what runs out.
#[derive(Clone, Copy)]
pub struct Left {
    /// How many ids of circuits, of 65,535.
    pub ids: u16,
    /// How many records of requests, of 65,536. `None` of a core that keeps no requests.
    pub records: Option<u32>,
}

fn are_few(count: u32) -> bool
    ensures { result ≡ are_few count }
{
    count <= FEW
}

// Whether a number was known, and few.
fn were_few(count: Option<u32>) -> bool
    ensures { result ≡ were_few count }
{
    match count {
        Some(count) => are_few(count),
        None => false,
    }
}

impl Left {
    /// What is left in a core that wasn't looked at yet: all ids; of records nothing is known.
    pub(crate) fn unseen() -> Left
        ensures { result ≡ unseen }
    {
        Left {
            ids: u16::MAX,
            records: None,
        }
    }

    /// What a core has left.
    pub fn of<C: Core>(core: &C) -> Left
        requires { C.valid core.now }
        ensures { (s : C.State) → C.stands core.now s →
            result ≡ left_of (C.ids_left_of s) (C.records_left_of s) }
    {
        Left {
            ids: core.ids_left(),
            records: core.records_left(),
        }
    }
}

// Adds how many ids are left, where they are few and weren't.
fn ids_onto(news: &mut News, old: u16, now: u16) -> Result<(), Memory>
    ensures { OnOk result (news.new ≡ news.old ++ ids_news old now) }
{
    if !are_few(u32::from(old)) && are_few(u32::from(now)) {
        news.push(Entry::IdsLeft(now))?;
    }
    Ok(())
}

// Adds how many records are left, where they are few and weren't.
fn records_onto(news: &mut News, old: Option<u32>, now: Option<u32>) -> Result<(), Memory>
    ensures { OnOk result (news.new ≡ news.old ++ records_news old now) }
{
    if let Some(now) = now
        && !were_few(old)
        && are_few(now)
    {
        news.push(Entry::RecordsLeft(now))?;
    }
    Ok(())
}

/// Adds what has come near its end between two looks.
pub fn left_onto(news: &mut News, old: Left, now: Left) -> Result<(), Memory>
    ensures { OnOk result (news.new ≡ news.old ++ left_news old now) }
{
    ids_onto(news, old.ids, now.ids)?;
    records_onto(news, old.records, now.records)
}

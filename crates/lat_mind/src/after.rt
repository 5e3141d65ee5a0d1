//! What a mind knows behind a fact.

ghost use Rattle.std.specs.Prelude.{◌≡◌};
ghost use Rattle.lat_mind.specs.Minds.{away_after, calm_after, ready_after, seen_after, shut_after, since_after};

use crate::fact::Fact;
use crate::look::Look;

/// How long a calm line waits for something to happen, in milliseconds.
const PATIENCE_MS: u64 = 50;

pub(crate) fn calm_after(calm: u64, fact: Fact) -> u64
    ensures { result ≡ calm_after calm fact }
{
    if !fact.is_quiet() {
        0
    } else if calm < PATIENCE_MS {
        calm + 1
    } else {
        PATIENCE_MS
    }
}

pub(crate) fn seen_after(seen: u64, see: &Look, fact: Fact) -> u64
    ensures { result ≡ seen_after seen see.now fact }
{
    match fact {
        Fact::Dialled | Fact::Undialled | Fact::Joined => see.line.newest,
        Fact::Connected(number) => number,
        _ => seen,
    }
}

pub(crate) fn shut_after(shut: u64, see: &Look, fact: Fact) -> u64
    ensures { result ≡ shut_after shut see.now fact }
{
    match fact {
        Fact::Closed => see.line.newest,
        _ => shut,
    }
}

pub(crate) fn since_after(noted: u64, since: u64, see: &Look) -> u64
    ensures { result ≡ since_after noted since see.now }
{
    if noted == see.line.newest {
        since
    } else {
        see.moment
    }
}

pub(crate) fn away_after(away: Option<u64>, see: &Look, fact: Fact) -> Option<u64>
    ensures { result ≡ away_after away see.now fact }
{
    match fact {
        Fact::Away => Some(see.moment),
        Fact::Came => None,
        _ => away,
    }
}

pub(crate) fn ready_after(ready: bool, fact: Fact) -> bool
    ensures { result ≡ ready_after ready fact }
{
    match fact {
        Fact::Readied => true,
        Fact::Unreadied => false,
        _ => ready,
    }
}

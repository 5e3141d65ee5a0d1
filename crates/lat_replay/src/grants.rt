//! The lines of the grants.

ghost use Rattle.std.specs.Prelude.{◌≡◌, ◌+◌, ◌-◌, ◌<◌, ◌≤◌, ◌++◌, ℕ, IfOk, OnOk, Some, List, vec_len, string_bytes};
ghost use Rattle.std.specs.List.{flat_map};
ghost use Rattle.lat_machines.specs.server.Queue.{QueueEvent, LegalQueue};
ghost use Rattle.lat_machines.specs.server.Records as machine;
ghost use Rattle.lat_machines.specs.server.Records.{grants_of};
ghost use Rattle.lat_machines.specs.server.Server.{Server};
ghost use Rattle.lat_queue.specs.Histories.{record_shown};
ghost use Rattle.lat_server.specs.Stands.{Stands};
ghost use Rattle.lat_wire.specs.report.ReportText.{grant_text};
ghost use Rattle.lat_replay.specs.Places.{SameKeys, IsPut, Places};
ghost use Rattle.lat_replay.specs.Requests.{place_text};

use lat_base::Memory;
use lat_queue::{Key, Record};
use lat_server::ServerCore;
use lat_wire::grant_onto;
use std::alloc::Global;

// At least so many places; those that are new are empty.
fn grow(places: &mut Vec<Option<Key>>, count: usize) -> Result<(), Memory>
    ensures same { OnOk result (SameKeys places.old.items places.new.items) }
    ensures count { OnOk result (count ≤ vec_len places.new) }
{
    let missing = count.saturating_sub(places.len());
    for _ in 0..missing {
        places.push(None)?;
    }
    Ok(())
}

// The key is put into the place of this number, from 1 on.
fn put(places: &mut Vec<Option<Key>>, number: usize, key: Key) -> Result<(), Memory>
    requires { 0 < number }
    ensures { OnOk result (IsPut (number - 1) key places.old.items places.new.items) }
{
    grow(places, number)?;
    places[number - 1] = Some(key);
    Ok(())
}

// The request, which is the record of this place, has the place of its grant, where it was granted.
fn place(places: &mut Vec<Option<Key>>, request: &Record) -> Result<(), Memory>
    ensures { OnOk result ((q : List QueueEvent) (n : ℕ) →
        LegalQueue q →
        machine.record_at n q ≡ Some (record_shown request.now) →
        Places q n places.old.items →
        Places q (n + 1) places.new.items) }
{
    match request.grant {
        Some(number) if number > 0 => put(places, number as usize, request.key),
        _ => Ok(()),
    }
}

// The keys of all requests that were granted, each in the place of its grant's number.
fn places_of(alloc: Global, server: &ServerCore) -> Result<Vec<Option<Key>>, Memory>
    ensures { IfOk result (λ places.
        (s : Server) → Stands server.now s →
        flat_map place_text places.items ≡ flat_map grant_text (grants_of s.queue)) }
{
    let mut places = Vec::new(alloc);
    let mut number = 0;
    while let Some(request) = server.record_at(number) {
        place(&mut places, &request)?;
        number += 1;
    }
    Ok(places)
}

// Appends the grants of these places, in order.
fn places_onto(places: &[Option<Key>], out: &mut String) -> Result<(), Memory>
    ensures { OnOk result (string_bytes out.new
        ≡ string_bytes out.old ++ flat_map place_text places.now) }
{
    for place in places {
        if let Some(key) = place {
            grant_onto(out, key)?;
        }
    }
    Ok(())
}

/// Appends the grants, in their order.
pub(crate) fn grants_onto(
    alloc: Global,
    server: &ServerCore,
    out: &mut String,
) -> Result<(), Memory>
    ensures { OnOk result ((s : Server) →
        Stands server.now s →
        string_bytes out.new ≡ string_bytes out.old ++ flat_map grant_text (grants_of s.queue)) }
{
    let places = places_of(alloc, server)?;
    places_onto(places.as_slice(), out)?;
    Ok(())
}

//! The tables of what a core shows.

ghost use Rattle.std.specs.Prelude.{◌≡◌, IfOk, string_bytes};
ghost use Rattle.lat_tables.specs.Listings.{listed};
ghost use Rattle.lat_tables.specs.Tables.{table_text};

use crate::circuits::circuits_table;
use crate::command::Listing;
use crate::lines::lines_table;
use crate::requests::requests_table;
use crate::services::services_table;
use crate::table::Table;
use lat_base::{Core, Memory};
use std::alloc::Global;

/// The table of what a core shows, which has so many lines. It is read at once, and takes memory for its rows. `Memory` where
/// none is found.
pub fn listed<C: Core>(
    alloc: Global,
    core: &C,
    listing: Listing,
    lines: u8,
) -> Result<Table, Memory>
    requires { C.valid core.now }
    ensures { (s : C.State) → C.stands core.now s → IfOk result (λ t. t ≡ listed listing (record {
      lines = lines;
      now = C.moment_of s;
      look_of = C.look_of s;
      correspondent_of = C.correspondent_of s;
      circuit_of = C.circuit_of s;
      node_of = C.node_of s;
      service_of = C.service_of s;
      offered_of = C.offered_of s;
      waiter_of = C.waiter_of s;
    })) }
{
    match listing {
        Listing::Lines => lines_table(alloc, core, lines),
        Listing::Services => services_table(alloc, core),
        Listing::Circuits => circuits_table(alloc, core),
        Listing::Requests => requests_table(alloc, core),
    }
}

/// The text of that table.
pub fn listed_text<C: Core>(
    alloc: Global,
    core: &C,
    listing: Listing,
    lines: u8,
) -> Result<String, Memory>
    requires { C.valid core.now }
    ensures { (s : C.State) → C.stands core.now s → IfOk result (λ t. string_bytes t ≡ table_text (listed listing (record {
      lines = lines;
      now = C.moment_of s;
      look_of = C.look_of s;
      correspondent_of = C.correspondent_of s;
      circuit_of = C.circuit_of s;
      node_of = C.node_of s;
      service_of = C.service_of s;
      offered_of = C.offered_of s;
      waiter_of = C.waiter_of s;
    }))) }
{
    listed(alloc, core, listing, lines)?.text(alloc)
}

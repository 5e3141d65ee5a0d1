//! What is printed of an entry.

ghost use Rattle.std.specs.Prelude.{◌≡◌, ◌≤◌, ◌++◌, List, OnOk, string_bytes, option_map};
ghost use Rattle.lat_machines.specs.server.Directory.{HeardAnnouncement, best};
ghost use Rattle.lat_dir.specs.Words.{best_shown};
ghost use Rattle.lat_dir.specs.Stands.{Stands};
ghost use Rattle.lat_show.specs.choice.Entries.{moment};
ghost use Rattle.lat_show.specs.choice.Printed.{bad_line, full_line, choice_line, hear_printed, with_heard, entry_printed, heard_after};

use crate::choice::entry::Entry;
use lat_base::{Addr, Bad, Memory, Name};
use lat_dir::{Best, DirFault, Directory};
use lat_notices::Announcement;
use lat_text::address_onto;
use std::alloc::{AllocError, Global};

fn bad_onto(text: &mut String, number: usize, bad: Bad) -> Result<(), AllocError>
    ensures { OnOk result (string_bytes text.new ≡ string_bytes text.old ++ bad_line number bad) }
{
    let (field, place) = (bad.field.word(), bad.at);
    write!(text, "line {number} bad {field} {place}\n")
}

fn full_onto(text: &mut String, number: usize) -> Result<(), AllocError>
    ensures { OnOk result (string_bytes text.new ≡ string_bytes text.old ++ full_line number) }
{
    write!(text, "line {number} full\n")
}

fn choice_onto(text: &mut String, best: Option<Best>) -> Result<(), AllocError>
    ensures { OnOk result (string_bytes text.new
        ≡ string_bytes text.old ++ choice_line (option_map best_shown best)) }
{
    let Some(best) = best else {
        return text.push_str("none\n");
    };
    let rating = best.rating;
    address_onto(text, best.from)?;
    write!(text, " {rating}\n")
}

// Asks for the best node of a service.
fn best_onto(
    text: &mut String,
    directory: &Directory,
    at: u64,
    service: &Name,
) -> Result<(), AllocError>
    requires { directory.now.moment ≤ at }
    ensures { (h : List HeardAnnouncement) →
        Stands directory.now h →
        OnOk result (string_bytes text.new
        ≡ string_bytes text.old ++ choice_line (best directory.now.groups service.now at h)) }
{
    choice_onto(text, directory.best(service, at))
}

// Hears an announcement, or prints its first bad field.
fn hear_onto(
    alloc: Global,
    text: &mut String,
    directory: &mut Directory,
    number: usize,
    at: u64,
    from: Addr,
    found: Result<Announcement, Bad>,
) -> Result<(), Memory>
    requires { directory.old.moment ≤ at }
    ensures text { (h : List HeardAnnouncement) →
        Stands directory.old h →
        OnOk result (string_bytes text.new
        ≡ string_bytes text.old ++ hear_printed directory.old.groups number at found h) }
    ensures stands { (h : List HeardAnnouncement) →
        Stands directory.old h →
        OnOk result (Stands directory.new (with_heard directory.old.groups at from found h)) }
    ensures groups { directory.new.groups ≡ directory.old.groups }
    ensures moment { directory.new.moment ≤ at }
{
    match found {
        Ok(announcement) => match directory.hear(alloc, from, &announcement, at) {
            Ok(_) => Ok(()),
            Err(DirFault::Full) => Ok(full_onto(text, number)?),
            Err(DirFault::Memory) => Err(Memory),
        },
        Err(bad) => Ok(bad_onto(text, number, bad)?),
    }
}

/// Does what an entry on the line of this number says, at a moment that isn't below any that the directory was told
/// before, and adds what is printed of it to a text. Takes memory for both; without it a part of either may be done.
pub fn entry_onto(
    alloc: Global,
    text: &mut String,
    directory: &mut Directory,
    number: usize,
    entry: Entry,
) -> Result<(), Memory>
    requires { directory.old.moment ≤ moment entry }
    ensures text { (h : List HeardAnnouncement) →
        Stands directory.old h →
        OnOk result (string_bytes text.new
        ≡ string_bytes text.old ++ entry_printed directory.old.groups number h entry) }
    ensures stands { (h : List HeardAnnouncement) →
        Stands directory.old h →
        OnOk result (Stands directory.new (heard_after directory.old.groups h entry)) }
    ensures groups { directory.new.groups ≡ directory.old.groups }
    ensures moment { directory.new.moment ≤ moment entry }
{
    match entry {
        Entry::Hear { at, from, found } => hear_onto(
            alloc, text, directory, number, at, from, found,
        ),
        Entry::Best { at, service } => Ok(best_onto(text, directory, at, &service)?),
    }
}

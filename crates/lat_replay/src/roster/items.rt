//! The items of an event.

ghost use Rattle.std.specs.Prelude.{◌≡◌, ℕ, [], length};
ghost use Rattle.lat_machines.specs.values.Answers as machines;
ghost use Rattle.lat_base.specs.Answers.{items_given};
ghost use Rattle.lat_lines.specs.AnswerValues.{answer_of};
ghost use Rattle.lat_lines.specs.Events.{event_shown};
ghost use Rattle.lat_laws.specs.tales.Items.{line_of, put_by, taken_by, accepted_bytes, accepted_setting, taken_items};
ghost use Rattle.lat_laws.specs.tales.Keeping.{adds};
ghost use Rattle.lat_laws.specs.tales.Rows.{RowsAfter};
ghost use Rattle.lat_replay.specs.roster.Roster.{HasRows, ReservedAt};
ghost use Rattle.lat_replay.specs.roster.Adding.{HasAdded};
ghost use Rattle.lat_replay.specs.roster.Reserved.{place_of, FitsIn, HasPlaces};

use crate::roster::Roster;
use lat_base::{Answer, Event, Item};

/// What an event adds to the items of its line's session, by its answer. There is room for them.
pub fn add_items(server: bool, event: &Event, answer: &Answer, roster: &mut Roster)
    requires { FitsIn roster.old server event.now answer.now }
    ensures shows { (a : machines.Answer) (k : RowsAfter) →
        answer.now ≡ answer_of a →
        HasRows roster.old k →
        HasRows roster.new (adds server (line_of (event_shown event.now))
        (put_by (event_shown event.now) a) (taken_by (event_shown event.now) a) k) }
    ensures places { (n : ℕ) → HasPlaces n roster.old → HasPlaces n roster.new }
{
    match event {
        Event::Put { line, bytes } => put_bytes(server, *line, bytes.as_slice(), answer, roster),
        Event::Set { line, setting } => put_setting(server, *line, setting, answer, roster),
        Event::Take { line, .. } => take_items(server, *line, answer, roster),
        _ => {}
    }
}

// The first bytes of a put, as many as its answer says.
fn put_bytes(server: bool, line: u8, bytes: &[u8], answer: &Answer, roster: &mut Roster)
    requires { ReservedAt roster.old.rows (place_of roster.old server line) server (length bytes.now) 0 }
    ensures shows { HasAdded roster.old roster.new server line answer.now (accepted_bytes bytes.now)
        (λ a. []) }
    ensures places { (n : ℕ) → HasPlaces n roster.old → HasPlaces n roster.new }
{
    if let Answer::Put(n) = answer {
        let (first, _) = bytes.split_at((*n as usize).min(bytes.len()));
        roster.puts(server, line, first);
    }
}

// A setting that was taken.
fn put_setting(server: bool, line: u8, setting: &[u8; 5], answer: &Answer, roster: &mut Roster)
    requires { ReservedAt roster.old.rows (place_of roster.old server line) server 1 0 }
    ensures shows { HasAdded roster.old roster.new server line answer.now (accepted_setting setting.now)
        (λ a. []) }
    ensures places { (n : ℕ) → HasPlaces n roster.old → HasPlaces n roster.new }
{
    if matches!(answer, Answer::Done) {
        roster.adds(server, line, &[Item::Set(*setting)], &[]);
    }
}

// The items that a take gave.
fn take_items(server: bool, line: u8, answer: &Answer, roster: &mut Roster)
    requires { ReservedAt roster.old.rows (place_of roster.old server line) server 0 (items_given answer.now) }
    ensures shows { HasAdded roster.old roster.new server line answer.now (λ a. []) taken_items }
    ensures places { (n : ℕ) → HasPlaces n roster.old → HasPlaces n roster.new }
{
    if let Answer::Took(items) = answer {
        roster.adds(server, line, &[], items.as_slice());
    }
}

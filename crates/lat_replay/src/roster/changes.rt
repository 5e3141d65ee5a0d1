//! What is changed in one row.

ghost use Rattle.std.specs.Prelude.{◌≡◌, ◌≢◌, ◌+◌, ◌-◌, ◌<◌, ◌≤◌, [], ◌++◌, ℕ, List, length, map, OnOk};
ghost use Rattle.lat_model.specs.sessions.Slots as slots;
ghost use Rattle.lat_laws.specs.tales.Rows as rows;
ghost use Rattle.lat_laws.specs.tales.Keeping.{change, with_items};
ghost use Rattle.lat_replay.specs.roster.Rows.{ShowsFigures, HasReserved};
ghost use Rattle.lat_stream.specs.Kept.{item_of};
ghost use Rattle.lat_replay.specs.roster.Roster.{ShowsRows, Changes, ReservedAt};

use crate::roster::figures::Figures;
use crate::roster::row::Row;
use lat_base::{Item, Memory};

// The figures of the server's end are written into the row at this place; nothing at 0.
pub(crate) fn leave_server(list: &mut [Row], place: usize, figures: Figures)
    requires { place ≤ length list.old }
    ensures { (rs : List rows.RowAfter) (f : rows.Figures) →
        ShowsRows list.old rs →
        (place ≢ 0 → ShowsFigures figures f) →
        ShowsRows list.new (change place (λ r. record r { server = f }) rs) }
{
    if place > 0 {
        list[place - 1].server = figures;
    }
}

// The figures of the node's end are written into the row at this place; nothing at 0.
pub(crate) fn leave_node(list: &mut [Row], place: usize, figures: Figures)
    requires { place ≤ length list.old }
    ensures { (rs : List rows.RowAfter) (f : rows.Figures) →
        ShowsRows list.old rs →
        (place ≢ 0 → ShowsFigures figures f) →
        ShowsRows list.new (change place (λ r. record r { node = f }) rs) }
{
    if place > 0 {
        list[place - 1].node = figures;
    }
}

// The row at this place gets the node's line; nothing at 0.
pub(crate) fn join(list: &mut [Row], place: usize, line: u8)
    requires place { place ≤ length list.old }
    requires line { 0 < line }
    ensures { Changes list.old list.new place (λ r. record r { node_line = line }) }
{
    if place > 0 {
        list[place - 1].node_line = Some(line);
    }
}

// One row's figures of the node's end are written down, and another gets the node's line.
pub(crate) fn hand_over(list: &mut [Row], left: usize, figures: Figures, place: usize, line: u8)
    requires left { left ≤ length list.old }
    requires place { place ≤ length list.old }
    requires line { 0 < line }
    ensures { (rs : List rows.RowAfter) (f : rows.Figures) →
        ShowsRows list.old rs →
        (left ≢ 0 → ShowsFigures figures f) →
        ShowsRows list.new (change place (λ r.
        record r { node_line = line }) (change left (λ r. record r { node = f }) rs)) }
{
    leave_node(list, left, figures);
    join(list, place, line);
}

// The row at this place has more bytes put; nothing at 0.
pub(crate) fn put_at(list: &mut [Row], place: usize, server: bool, bytes: &[u8])
    requires place { place ≤ length list.old }
    requires reserved { ReservedAt list.old place server (length bytes.now) 0 }
    ensures { Changes list.old list.new place (with_items server (map slots.Byte bytes.now) []) }
{
    if place > 0 {
        list[place - 1].puts(server, bytes);
    }
}

// The row at this place has more items put and taken; nothing at 0.
pub(crate) fn add_at(list: &mut [Row], place: usize, server: bool, put: &[Item], taken: &[Item])
    requires place { place ≤ length list.old }
    requires reserved { ReservedAt list.old place server (length put.now) (length taken.now) }
    ensures { (rs : List rows.RowAfter) (ps ts : List slots.Item) →
        put.now ≡ map item_of ps →
        taken.now ≡ map item_of ts →
        ShowsRows list.old rs →
        ShowsRows list.new (change place (with_items server ps ts) rs) }
{
    if place > 0 {
        list[place - 1].adds(server, put, taken);
    }
}

// Takes room in the row at this place, if it is one.
pub(crate) fn reserve_at(
    list: &mut [Row],
    place: usize,
    server: bool,
    put: usize,
    taken: usize,
) -> Result<(), Memory>
    requires { place ≤ length list.old }
    ensures same { (rs : List rows.RowAfter) → ShowsRows list.old rs → ShowsRows list.new rs }
    ensures reserved { OnOk result (ReservedAt list.new place server put taken) }
{
    if place > 0 {
        list[place - 1].reserve(server, put, taken)?;
    }
    Ok(())
}

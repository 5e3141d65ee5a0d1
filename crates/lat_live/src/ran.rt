//! What became of a daemon.

ghost use Rattle.std.specs.Prelude.{◌≡◌, None, []};
ghost use Rattle.lat_words.specs.declared.config.Role.TheVariants as roles;
ghost use Rattle.lat_live.specs.declared.ran.Ran.TheVariants as rans;
ghost use Rattle.lat_live.specs.Served.{CameOf};

use crate::lists::{Ends, Lines};
use crate::opening::Refused;
use crate::rated::RateRule;
use crate::seats::Given;
use crate::serving::CoreServed;
use lat_cell::{Cell, Shares};
use lat_node::NodeCore;
use lat_outside::{Callers, Tx};
use lat_server::ServerCore;
use lat_switch::SwitchCore;
use lat_tariff::Tariff;
use lat_words::WordsFault;
use std::alloc::Global;
use std::sync::ledger::Ledger;

/// The cell of a daemon, by its role.
#[derive(Drop)]
pub enum Ran<T: Tx, E: Ledger, B: Ledger> {
    /// No worker was started.
    Not,
    Server(Cell<ServerCore, T, E, B>),
    Switch(Cell<SwitchCore, T, E, B>),
    /// A node, with a tariff of the words or without.
    Node(Cell<NodeCore<Tariff<RateRule>>, T, E, B>),
}

/// What a daemon hands back: the status to end with, its cell, the shares of all seats (the wire, the lines by rising number, the
/// clock), and of each line how its worker ended, and its callers; the port that couldn't be opened, if one couldn't; and what is
/// wrong with the words, if something is.
#[derive(Drop)]
pub struct Served<T: Tx, L: Callers, E: Ledger, B: Ledger> {
    pub status: u8,
    pub refused: Option<Refused>,
    pub wrong: Option<WordsFault>,
    pub ran: Ran<T, E, B>,
    pub shares: Shares<E, B>,
    pub ends: Ends,
    pub lines: Lines<L>,
}

// What ran, with this status, and what its seats gave back.
fn handed_back<T: Tx, L: Callers, E: Ledger, B: Ledger>(
    status: u8,
    refused: Option<Refused>,
    ran: Ran<T, E, B>,
    given: Given<L, E, B>,
) -> Served<T, L, E, B>
    ensures status { result.status ≡ status }
    ensures refused { result.refused ≡ refused }
    ensures wrong { result.wrong ≡ None }
    ensures ran { result.ran ≡ ran }
    ensures shares { result.shares ≡ given.shares.items }
    ensures ends { result.ends ≡ given.ends.items }
    ensures lines { result.lines ≡ given.lines.items }
{
    let Given {
        shares,
        ends,
        lines,
    } = given;
    Served {
        status,
        refused,
        wrong: None,
        ran,
        shares: Shares::of(shares),
        ends: Ends::of(ends),
        lines: Lines::of(lines),
    }
}

impl<T: Tx, L: Callers, E: Ledger, B: Ledger> Served<T, L, E, B> {
    /// No worker was started, and this is wrong with the words, if anything.
    pub(crate) fn nothing(
        alloc: Global,
        status: u8,
        wrong: Option<WordsFault>,
    ) -> Served<T, L, E, B>
        ensures status { result.status ≡ status }
        ensures none { result.ran ≡ rans.Not }
        ensures refused { result.refused ≡ None }
        ensures wrong { result.wrong ≡ wrong }
        ensures empty { (result.shares ≡ []) × (result.ends ≡ []) × (result.lines ≡ []) }
    {
        let nothing = handed_back(status, None, Ran::Not, Given::none(alloc));
        Served { wrong, ..nothing }
    }

    /// What came of a server.
    pub(crate) fn of_server(done: CoreServed<ServerCore, T, L, E, B>) -> Served<T, L, E, B>
        ensures { CameOf roles.Server done result }
    {
        let CoreServed {
            status,
            refused,
            ran,
            given,
        } = done;
        match ran {
            Some(cell) => handed_back(status, refused, Ran::Server(cell), given),
            None => handed_back(status, refused, Ran::Not, given),
        }
    }

    /// What came of a server with several sessions on each line.
    pub(crate) fn of_switch(done: CoreServed<SwitchCore, T, L, E, B>) -> Served<T, L, E, B>
        ensures { CameOf roles.Switch done result }
    {
        let CoreServed {
            status,
            refused,
            ran,
            given,
        } = done;
        match ran {
            Some(cell) => handed_back(status, refused, Ran::Switch(cell), given),
            None => handed_back(status, refused, Ran::Not, given),
        }
    }

    /// What came of a node.
    pub(crate) fn of_node(
        done: CoreServed<NodeCore<Tariff<RateRule>>, T, L, E, B>,
    ) -> Served<T, L, E, B>
        ensures { CameOf roles.Node done result }
    {
        let CoreServed {
            status,
            refused,
            ran,
            given,
        } = done;
        match ran {
            Some(cell) => handed_back(status, refused, Ran::Node(cell), given),
            None => handed_back(status, refused, Ran::Not, given),
        }
    }
}

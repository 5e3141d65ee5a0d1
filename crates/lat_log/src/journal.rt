//! The log of a daemon, as it stands under its lock.

ghost use Rattle.std.specs.Prelude.{◌≡◌, [], ◌<◌, ◌++◌, IfOk, OnOk, OnErr, length};
ghost use Rattle.std.specs.List.{fold};
ghost use Rattle.log.specs.Level.{allows};
ghost use Rattle.lat_log.specs.Journals.{added, all_added, due_told, hinted, is_off, noted, offers_noted, opened, seen_noted, services_noted, some_added, turned};
ghost use Rattle.lat_log.specs.LeftNews.{left_of};
ghost use Rattle.lat_log.specs.Sights.{gathered, node_offers};
ghost use Rattle.lat_log.specs.Watches.{shown};

use crate::bad_rate::{BadRate, BadTold};
use crate::entry::{Entry, Flow};
use crate::hint::Hint;
use crate::line::level_of;
use crate::page::{Page, Stamped};
use crate::trigger::Trigger;
use crate::watch::Watch;
use lat_base::{Core, Memory};
use log::LevelFilter;
use std::alloc::Global;
use std::marker::Model;

/// What a daemon's log is under its lock: how much of it is wanted, what was seen last of the core, how bad payloads are told of,
/// and the entries that aren't handed out yet, at most 1,000. One for which there is no room is counted, and the next page says how
/// many there were.
#[derive(Drop)]
pub struct Journal {
    level: LevelFilter,
    watch: Watch,
    rate: BadRate,
    page: Page,
    missed: u64,
}

impl Model for Journal {
    ghost use Rattle.lat_log.specs.Journals.{Kept};

    ghost Value = { Kept };

    ghost view = { λ a. record {
      level = a.level;
      watch = a.watch;
      rate = a.rate;
      page = a.page;
      missed = a.missed;
    } };
}

impl Journal {
    /// A log of which so much is wanted, without an entry. `Memory` where none is found.
    pub fn make(alloc: Global, level: LevelFilter, watch: Watch) -> Result<Journal, Memory>
        ensures { IfOk result (λ j. j ≡ opened level watch) }
    {
        Ok(Journal {
            level,
            watch,
            rate: BadRate::new(),
            page: Page::make(alloc)?,
            missed: 0,
        })
    }

    // Whether nothing is wanted.
    fn is_off(&self) -> bool
        ensures { result ≡ is_off self.now }
    {
        matches!(self.level, LevelFilter::Off)
    }

    /// Adds an entry of this moment, where it is wanted. Where there is no room it is counted. It takes no memory.
    #[tactic(auto, unfolding(crate::specs::Journals::added))]
    pub fn add(&mut self, moment: u64, entry: Entry)
        ensures added { self.new ≡ added moment self.old entry }
        ensures watch { self.new.watch ≡ self.old.watch }
    {
        if !self.level.allows(level_of(&entry)) {
            return;
        }
        if self.page.is_full() {
            self.missed = self.missed.saturating_add(1);
        } else {
            self.page.push(Stamped::of(moment, entry));
        }
    }

    // Adds entries of this moment, in order.
    fn add_all(&mut self, moment: u64, news: &[Entry])
        ensures { self.new ≡ all_added moment self.old news.now }
    {
        for entry in news {
            self.add(moment, *entry);
        }
    }

    // Adds an entry of this moment, if there is one.
    fn add_some(&mut self, moment: u64, entry: Option<Entry>)
        ensures added { self.new ≡ some_added moment self.old entry }
        ensures watch { self.new.watch ≡ self.old.watch }
    {
        if let Some(entry) = entry {
            self.add(moment, entry);
        }
    }

    // Adds what is told of a bad payload, where the event was one.
    fn hint(&mut self, moment: u64, hint: &Hint)
        ensures hinted { self.new ≡ hinted moment self.old hint.now.bad }
        ensures watch { self.new.watch ≡ self.old.watch }
    {
        if let Some(entry) = hint.bad {
            let BadTold { before, own } = self.rate.tell(moment, entry);
            self.add_some(moment, before);
            self.add_some(moment, own);
        }
    }

    // Adds what is new of circuits, sessions and requests.
    fn note_seen<C: Core>(
        &mut self,
        alloc: Global,
        core: &C,
        moment: u64,
        trigger: Trigger,
        flows: &[Flow],
    ) -> Result<(), Memory>
        requires { C.valid core.now }
        ensures noted { (s : C.State) → C.stands core.now s → OnOk result (self.new ≡ seen_noted moment self.old trigger
            (shown (C.circuit_of s) (C.look_of s) (C.correspondent_of s) (C.waiter_of s)
            (left_of (C.ids_left_of s) (C.records_left_of s)) flows.now self.old.watch)) }
        ensures err { OnErr result (self.new ≡ self.old) }
    {
        let news = self.watch.notice(alloc, core, trigger, flows)?;
        self.add_all(moment, news.as_slice());
        Ok(())
    }

    // Adds what is new of services.
    fn note_offers<C: Core>(&mut self, alloc: Global, core: &C, moment: u64) -> Result<(), Memory>
        requires { C.valid core.now }
        ensures noted { (s : C.State) → C.stands core.now s → OnOk result (self.new ≡
            offers_noted moment self.old (gathered (node_offers (C.node_of s) (C.service_of s)) 0 256)) }
        ensures err { OnErr result (self.new ≡ self.old) }
    {
        let news = self.watch.notice_services(alloc, core)?;
        self.add_all(moment, news.as_slice());
        Ok(())
    }

    /// Adds what is new behind an event: of a bad payload, and where the event may have changed circuits, sessions or requests, of
    /// these. Where nothing is wanted it looks at nothing. `Memory` where none is found: then what was seen last stays, so that the
    /// next note says what is new since.
    pub fn note<C: Core>(
        &mut self,
        alloc: Global,
        core: &C,
        hint: &Hint,
        flows: &[Flow],
    ) -> Result<(), Memory>
        requires { C.valid core.now }
        ensures noted { (s : C.State) → C.stands core.now s → OnOk result (self.new ≡
            noted (C.moment_of s) self.old hint.now
            (shown (C.circuit_of s) (C.look_of s) (C.correspondent_of s) (C.waiter_of s)
            (left_of (C.ids_left_of s) (C.records_left_of s)) flows.now self.old.watch)) }
        ensures err { (s : C.State) → C.stands core.now s → OnErr result (self.new ≡
            hinted (C.moment_of s) self.old hint.now.bad) }
    {
        if self.is_off() {
            return Ok(());
        }
        let moment = core.moment();
        self.hint(moment, hint);
        if hint.concerns {
            self.note_seen(alloc, core, moment, hint.trigger, flows)?;
        }
        Ok(())
    }

    /// Adds what is new of services, and how many bad payloads have no line, where their second is over. It is for each second.
    /// `Memory` where none is found: then what was seen of the services stays.
    pub fn note_services<C: Core>(&mut self, alloc: Global, core: &C) -> Result<(), Memory>
        requires { C.valid core.now }
        ensures noted { (s : C.State) → C.stands core.now s → OnOk result (self.new ≡
            services_noted (C.moment_of s) self.old (gathered (node_offers (C.node_of s) (C.service_of s)) 0 256)) }
        ensures err { (s : C.State) → C.stands core.now s → OnErr result (self.new ≡ due_told (C.moment_of s) self.old) }
    {
        if self.is_off() {
            return Ok(());
        }
        let moment = core.moment();
        let more = self.rate.due(moment);
        self.add_some(moment, more);
        self.note_offers(alloc, core, moment)
    }

    /// Hands its page out, and goes on with the one that is given, which must have no entry. Where entries were missed, the new page
    /// begins with their number. It takes no memory.
    pub fn turn(&mut self, moment: u64, page: &mut Page)
        requires { page.old ≡ [] }
        ensures page { page.new ≡ self.old.page }
        ensures journal { self.new ≡ turned moment self.old }
    {
        std::mem::swap(&mut self.page, page);
        let missed = self.missed;
        self.missed = 0;
        if missed > 0 {
            self.add(moment, Entry::Missed(missed));
        }
    }
}

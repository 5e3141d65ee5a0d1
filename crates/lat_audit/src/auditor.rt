//! An audit under way.

ghost use Rattle.std.specs.Prelude.{◌≡◌, ◌+◌, ◌^◌, ◌<◌, ◌≤◌, OnOk, IfOk, option_map, string_bytes};
ghost use Rattle.lat_captures.specs.declared.head.Title.{Title};
ghost use Rattle.lat_audit.specs.Steps.{Progress, start, verdict_of};
ghost use Rattle.lat_audit.specs.Follows.{FollowsCapture, Counted, after_entry, broken_at};
ghost use Rattle.lat_audit.specs.AuditOf.{verdict_text};

use crate::entry::Entry;
use crate::entry_check::entry_checked;
use lat_base::Memory;
use lat_captures::{Checker, Rule, Title};
use std::alloc::{AllocError, Global};

/// The first broken entry, counted from 1 over all entries, and the first rule that it breaks.
#[derive(Clone, Copy)]
pub struct Broken {
    pub index: u64,
    pub rule: Rule,
}

/// What is known of a capture behind its first entries.
pub struct Auditor {
    pub checker: Checker,
    /// How many entries there were, up to the first broken one.
    pub count: u64,
    pub broken: Option<Broken>,
}

impl Drop for Auditor {
    fn drop(self) {
        let Self {
            checker,
            count,
            broken,
        } = self;
    }
}

// What is found of the entry of this index.
fn broken_at(index: u64, found: Option<Rule>) -> Option<Broken>
    ensures { result ≡ option_map (broken_at index) found }
{
    let rule = found?;
    Some(Broken { index, rule })
}

impl Auditor {
    /// Before the first entry of a capture with this title. Takes no memory.
    pub fn new(alloc: Global, title: Title) -> Auditor
        ensures follows { FollowsCapture title result start }
        ensures counted { Counted result }
        ensures count { result.count ≡ 0 }
    {
        Auditor {
            checker: Checker::new(alloc, title),
            count: 0,
            broken: None,
        }
    }

    /// Goes on by an entry. Behind a broken one nothing more is looked at. Takes memory for what the entry reads as; without it
    /// the audit is of no more use.
    pub fn hear(&mut self, alloc: Global, entry: &Entry) -> Result<(), Memory>
        requires counted { Counted self.old }
        requires room { self.old.count + 4 < 2 ^ 64 }
        ensures follows { (t : Title) (q : Progress) → FollowsCapture t self.old q →
            OnOk result (FollowsCapture t self.new (after_entry t q entry.now)) }
        ensures counted { OnOk result (Counted self.new) }
        ensures count { OnOk result (self.new.count ≤ self.old.count + 1) }
    {
        if self.broken.is_some() {
            return Ok(());
        }
        let found = entry_checked(&mut self.checker, alloc, entry)?;
        self.count += 1;
        self.broken = broken_at(self.count, found);
        Ok(())
    }

    /// The text of the verdict on the entries so far.
    pub fn verdict(&self, alloc: Global) -> Result<String, AllocError>
        ensures { (t : Title) (q : Progress) → FollowsCapture t self.now q →
            IfOk result (λ text. string_bytes text ≡ verdict_text (verdict_of q)) }
    {
        match self.broken {
            None => {
                let runs = self.checker.runs();
                format!(in alloc; "legal {runs}\n")
            }
            Some(Broken { index, rule }) => {
                let word = rule.word();
                format!(in alloc; "frame {index} {word}\n")
            }
        }
    }
}

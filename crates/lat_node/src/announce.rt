//! What a node announces.

ghost use Rattle.std.specs.Prelude.{◌≡◌, ℕ, ◌<◌, ◌≤◌, ◌+◌, cond, List, [], ◌∷◌, find, position, map, length, Some, IfOk, OnOk, OnErr};
ghost use Rattle.lat_base.specs.declared.answer.Answer.TheVariants as answers;
ghost use Rattle.lat_notices.specs.Writing.{CanBeWritten};
ghost use Rattle.lat_machines.specs.node.Node as machine;
ghost use Rattle.lat_machines.specs.values.Addresses.{address};
ghost use Rattle.lat_machines.specs.values.Names.{same};
ghost use Rattle.lat_dir.specs.Announcements.{service_shown};
ghost use Rattle.lat_lines.specs.Answers.{IsPlain};
ghost use Rattle.lat_lines.specs.AnswerValues.{answer_shown};
ghost use Rattle.lat_node.specs.Announced.{ratings, AnnouncesAs, IsAnnounced};
ghost use Rattle.lat_node.specs.Events.{announces, Rated};
ghost use Rattle.lat_node.specs.Kept.{config_of};
ghost use Rattle.lat_node.specs.Places.{places, response_places, AreRates};
ghost use Rattle.lat_node.specs.Stands.{Stands};

use crate::hook::RatingRule;
use crate::node::NodeCore;
use lat_base::{Addr, Answer, Bytes, EVERYONE, Memory, Name, OutBox};
use lat_notices::{Announcement, Notice, Service, Services, Solicit};
use lat_payload::{notice_frame, response_frame};
use std::alloc::Global;

impl<H: RatingRule> NodeCore<H> {
    /// Announces all services to everyone, each with the rating that the rule gives for it at the lines held; once it is halted,
    /// nothing more. Takes its memory first.
    pub(crate) fn announce(&self, alloc: Global, out: &mut OutBox) -> Result<Answer, Memory>
        requires fact { H.fact self.now.rule }
        requires room { length out.old + 16 ≤ 256 }
        ensures answer { IfOk result (λ a. a ≡ answers.Done) }
        ensures frames { (s : machine.Node) →
            Stands self.now s →
            OnOk result (Rated H.may self.now s (announces (config_of self.now) s)
            (cond s.halted [] (places (config_of self.now))) out.old out.new) }
        ensures most { length out.new ≤ length out.old + 1 }
        ensures err { OnErr result (out.new ≡ out.old) }
    {
        if self.halted {
            return Ok(Answer::Done);
        }
        let announcement = self.announcement(alloc, self.lines.used())?;
        out.push(notice_frame(EVERYONE, &announcement));
        Ok(Answer::Done)
    }

    /// Answers a Solicit for a service that is offered with a Response, and announces all services; once it is halted, with
    /// nothing. Takes its memory first.
    pub(crate) fn solicited(
        &self,
        alloc: Global,
        from: Addr,
        solicit: &Solicit,
        out: &mut OutBox,
    ) -> Result<Answer, Memory>
        requires fact { H.fact self.now.rule }
        requires room { length out.old + 16 ≤ 256 }
        ensures answer { (s : machine.Node) →
            Stands self.now s →
            IfOk result (λ a.
            answer_shown a
            ≡ (machine.solicited (config_of self.now) [] s (address from.0) solicit.now.id
            (find (same solicit.now.service) self.now.services)).answer) }
        ensures frames { (s : machine.Node) →
            Stands self.now s →
            OnOk result
            (Rated H.may self.now s
            (λ rates. machine.solicited (config_of self.now) rates s (address from.0) solicit.now.id
            (find (same solicit.now.service) self.now.services))
            (cond s.halted []
            (response_places (config_of self.now) (position (same solicit.now.service) self.now.services)))
            out.old out.new) }
        ensures plain { IfOk result IsPlain }
        ensures most { length out.new ≤ length out.old + 2 }
        ensures err { OnErr result (out.new ≡ out.old) }
    {
        match self.services.place_of(&solicit.service) {
            Some(place) => {
                let service = self.services.as_slice()[place];
                self.respond(alloc, from, solicit.id, place, &service, out)
            }
            None => Ok(Answer::Ignored),
        }
    }

    // Answers a Solicit of this id for the service that is offered at this place. The rating of the Response is asked for first.
    fn respond(
        &self,
        alloc: Global,
        from: Addr,
        id: u16,
        place: usize,
        service: &Name,
        out: &mut OutBox,
    ) -> Result<Answer, Memory>
        requires fact { H.fact self.now.rule }
        requires place { place < length self.now.services }
        requires room { length out.old + 16 ≤ 256 }
        ensures answer { IfOk result (λ a. a ≡ answers.Solicited) }
        ensures frames { (s : machine.Node) →
            Stands self.now s →
            OnOk result
            (Rated H.may self.now s
            (λ rates. machine.solicited (config_of self.now) rates s (address from.0) id (Some service.now))
            (cond s.halted [] (place ∷ places (config_of self.now)))
            out.old out.new) }
        ensures most { length out.new ≤ length out.old + 2 }
        ensures err { OnErr result (out.new ≡ out.old) }
    {
        if self.halted {
            return Ok(Answer::Solicited);
        }
        let used = self.lines.used();
        let rating = self.rating(place, used);
        let announcement = self.announcement(alloc, used)?;
        let name = self.lines.name();
        out.push(response_frame(from, id, &name, service, rating, self.timer));
        out.push(notice_frame(EVERYONE, &announcement));
        Ok(Answer::Solicited)
    }

    // The rating of the service at this place where so many lines are held.
    fn rating(&self, place: usize, used: u16) -> u8
        requires fact { H.fact self.now.rule }
        requires place { place < length self.now.services }
        requires within { used ≤ self.now.lines.lines }
        ensures { H.may self.now.rule place used self.now.lines.lines result }
    {
        self.rule.rate(place, used, self.lines.count() as u16)
    }

    // The announcement of all services, where so many lines are held.
    fn announcement(&self, alloc: Global, used: u16) -> Result<Notice, Memory>
        requires fact { H.fact self.now.rule }
        requires within { used ≤ self.now.lines.lines }
        ensures written { IfOk result CanBeWritten }
        ensures announced { IfOk result (IsAnnounced H.may self.now used) }
    {
        let services = self.rated(alloc, used)?;
        self.announced(alloc, services)
    }

    /// The announcement of these services, each with its rating and no description.
    pub(crate) fn announced(&self, alloc: Global, services: Services) -> Result<Notice, Memory>
        ensures written { (names : List (List ℕ)) →
            length names ≤ 32 →
            map service_shown services ≡ machine.rated names (ratings services) →
            IfOk result CanBeWritten }
        ensures announced { (names : List (List ℕ)) →
            map service_shown services ≡ machine.rated names (ratings services) →
            IfOk result (AnnouncesAs (record (config_of self.now) { services = names }) (ratings services)) }
    {
        Ok(Notice::Announcement(Announcement {
            timer: self.timer,
            incarnation: self.incarnation,
            groups: Bytes::copy(alloc, self.groups.as_slice())?,
            node: self.lines.name(),
            description: Bytes::copy(alloc, &[])?,
            services,
        }))
    }

    // The services, each with the rating of its place.
    fn rated(&self, alloc: Global, used: u16) -> Result<Services, Memory>
        requires fact { H.fact self.now.rule }
        requires within { used ≤ self.now.lines.lines }
        ensures names { IfOk result (λ ss.
            map service_shown ss ≡ machine.rated self.now.services (ratings ss)) }
        ensures ratings { IfOk result (λ ss.
            AreRates (H.may self.now.rule) used self.now.lines.lines (places (config_of self.now)) (ratings ss)) }
        ensures few { length self.now.services ≤ 32 }
    {
        let mut services = Services::new(alloc);
        let names = self.services.as_slice();
        for (place, name) in names.iter().enumerate() {
            services.push(self.service(alloc, place, name, used)?)?;
        }
        Ok(services)
    }

    // The service of this name, with the rating of this place.
    fn service(
        &self,
        alloc: Global,
        place: usize,
        name: &Name,
        used: u16,
    ) -> Result<Service, Memory>
        requires fact { H.fact self.now.rule }
        requires place { place < length self.now.services }
        requires within { used ≤ self.now.lines.lines }
        ensures shown { IfOk result (λ s.
            service_shown s ≡ record { rating = s.rating; name = name.now; description = [] }) }
        ensures rating { IfOk result (λ s. H.may self.now.rule place used self.now.lines.lines s.rating) }
    {
        Ok(Service {
            rating: self.rating(place, used),
            name: *name,
            description: Bytes::copy(alloc, &[])?,
        })
    }
}

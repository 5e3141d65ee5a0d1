//! The laws of one machine, behind every history of it.

ghost use Rattle.lat_laws.specs.habits.Refused.{UnservedGrantsNothing, RefusedCommandsGrantNothing, RepeatedCommandsGrantNothing, RefusedStartsStop};
ghost use Rattle.lat_laws.specs.habits.Chosen.{ChosenAreWilling, NoneIsWilling, UnwillingAreNotChosen};
ghost use Rattle.lat_laws.specs.habits.Fullness.{ServerLinesSuffice, NodeLinesSuffice, AnnouncementsTellFullness, FullAreNotChosen};
ghost use Rattle.lat_laws.specs.habits.Living.{ServerCircuitsApart, NodeCircuitsApart};
ghost use Rattle.lat_laws.specs.habits.Accepted.{AcceptedOnce};
ghost use Rattle.lat_laws.specs.habits.Kinds.{ServerHearsItsKind, NodeHearsItsKind};
ghost use Rattle.lat_laws.specs.habits.Credits.{ServerSlotsCredited, NodeSlotsCredited, ServerWithinCredits, NodeWithinCredits};

/// A refused event connects no line: neither by itself nor by the grant pass behind it. A connect that no node serves draws
/// a solicit id and sends a Solicit (`unserved`). A refused command is noted in the queue and answered by a Status
/// (`commands`); so is one whose key is known, from its record, but for the cancel of a request that waits (`again`). At a
/// node a refused START is answered by a STOP, which says whether the node is halted (`starts`). Nothing else changes but the
/// moment, and that a prompt node has ended the slaves that the START follows. The other refusals change nothing at all, by
/// `refusals_change_nothing` of the machines.
pub fn refused_events_grant_nothing()
    ensures unserved { UnservedGrantsNothing }
    ensures commands { RefusedCommandsGrantNothing }
    ensures again { RepeatedCommandsGrantNothing }
    ensures starts { RefusedStartsStop }
{}

/// The node that is chosen for a service is live, announced itself to a group that the server listens to, or to all, rates
/// the service above 0 in its latest announcement, and no live node is better (`chosen`). Where none is chosen, all rate it 0
/// (`none`). So none is chosen whose latest announcement rates it 0 (`unwilling`).
pub fn chosen_nodes_are_willing()
    ensures chosen { ChosenAreWilling }
    ensures none { NoneIsWilling }
    ensures unwilling { UnwillingAreNotChosen }
{}

/// Never are more sessions held on lines than there are lines.
pub fn lines_suffice()
    ensures server { ServerLinesSuffice }
    ensures node { NodeLinesSuffice }
{}

/// By a rule of rating that gives 0 exactly where all lines are held, a node's announcement rates each service 0 exactly
/// where all its lines were held when it was made (`told`). So a node whose latest announcement was made full is chosen for no
/// service (`full`).
pub fn full_nodes_are_not_chosen()
    ensures told { AnnouncementsTellFullness }
    ensures full { FullAreNotChosen }
{}

/// Two circuits that live aren't to the same end: those of a server have different addresses, those of a node different
/// addresses or different ids of the peer.
pub fn living_circuits_are_apart()
    ensures server { ServerCircuitsApart }
    ensures node { NodeCircuitsApart }
{}

/// A node accepts a session for a request once: no request id is accepted twice.
pub fn requests_are_accepted_once()
    ensures { AcceptedOnce }
{}

/// In every state: a RUN whose numbers have another width than those of the circuit that it names, or whose master bit is
/// that of the end that hears it, is foreign.
pub fn runs_of_another_kind_are_foreign()
    ensures server { ServerHearsItsKind }
    ensures node { NodeHearsItsKind }
{}

/// Each credited slot had its credit when it was formed, whoever has the other end of the circuit and whatever that end
/// sends: of each session that ever was on each circuit, also on one that broke, each slot was formed at some event, behind
/// which the credited slots up to it are at most the credits in the slots that the session had heard (`server`, `node`). So
/// at every moment no more credits are used up than were given (`server_total`, `node_total`).
pub fn slots_had_their_credits()
    ensures server { ServerSlotsCredited }
    ensures node { NodeSlotsCredited }
    ensures server_total { ServerWithinCredits }
    ensures node_total { NodeWithinCredits }
{}

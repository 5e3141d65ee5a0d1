//! What holds of every notice. Nothing here runs: each law is a function that takes nothing, and whose contract is the statement.

ghost use Rattle.lat_log.specs.Laws.{FewAreSaidOnce, ServicesAreSilent, UnchangedIsSilent};

/// Where a core shows what it showed at the last notice, nothing is new.
pub fn unchanged_is_silent()
    ensures { UnchangedIsSilent }
{}

/// Where nodes announce what they announced at the last notice of services, nothing is new.
pub fn services_are_silent()
    ensures { ServicesAreSilent }
{}

/// However often a core is looked at, once it is said that few ids are left, and once that few records are.
pub fn few_are_said_once()
    ensures { FewAreSaidOnce }
{}

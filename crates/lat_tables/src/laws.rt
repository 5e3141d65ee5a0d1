//! The law of the commands.

ghost use Rattle.lat_tables.specs.Laws.{CommandsAreRead};

/// Each command as it is typed reads as that command.
pub fn commands_are_read()
    ensures { CommandsAreRead }
{}

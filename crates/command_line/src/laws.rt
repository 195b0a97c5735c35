//! Laws over the definitions alone.
//! Rule: MANUAL, Commands.

ghost use Rattle.command_line.specs.CommandRows.{CommandsAreRead};

/// Worked command lines are read, or refused, as they should be.
pub fn commands_are_read()
    ensures { CommandsAreRead }
{}

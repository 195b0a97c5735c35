//! Laws over the definitions alone.
//! Rule: SEMANTICS, Laws.

ghost use Rattle.sessions.specs.Events.{FailedEventsAreUndone};
ghost use Rattle.sessions.specs.Playing.{PlayedIsSession};
ghost use Rattle.sessions.specs.Sessions.{HasOneSession, ToldInAll};

use sector_disk::SectorDevice;

/// A session that is computed, and in which each line took all that it was given, is a session.
pub fn played()
    ensures { PlayedIsSession }
{}

/// An input has at most one session without `DEVICE` and `MEMORY`, and so at most one output.
pub fn one_session()
    ensures { HasOneSession }
{}

/// Where lines are events, the blocks are behind each line that failed as they were saved last.
/// Rule: MANUAL, Lines that are undone.
pub fn failed_events()
    ensures { FailedEventsAreUndone }
{}

/// What a session tells line by line, of failures and calls of the device, it tells in all.
pub fn told_in_all<D: SectorDevice>()
    ensures { ToldInAll D.SectorDevice }
{}

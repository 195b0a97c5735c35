//! Laws over the definitions alone.
//! Rule: SEMANTICS, Laws.

ghost use Rattle.cell_machine.specs.Division.{DivisionIs};
ghost use Rattle.cell_machine.specs.Served.{StepsKeep, CallsKeep};
ghost use Rattle.cell_machine.specs.Staying.{FramesStay, BodyStays, StepsStay, CallsStay};

/// Quotient and remainder give the dividend back, and the remainder is 0 or has the sign of the
/// divisor and is nearer to 0: floored division of the Forth-83 Standard.
pub fn division()
    ensures { DivisionIs }
{}

/// A running body may change the code, as `COMPILE` and `:` do, and the caller's map of it: what is left to do
/// still stands there, as long as the cells of the words that run are kept.
pub fn frames_stay()
    ensures frames { FramesStay }
    ensures bodies { BodyStays }
    ensures steps { StepsStay }
    ensures calls { CallsStay }
{}

/// A frame step keeps the value of what is left to do, over any state `E` of the caller, if its services give no steps
/// back. So do steps that call too, where the services do each word as it is meant: whether a word is called within
/// the machine or left to the caller, what is left comes to the same.
pub fn calls_keep<E>()
    ensures steps { StepsKeep E }
    ensures calls { CallsKeep E }
{}

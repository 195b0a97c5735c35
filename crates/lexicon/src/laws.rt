//! Laws over the definitions alone. The functions do nothing; a caller's proof cites their clauses.
//! Rule: SEMANTICS, Laws.

ghost use Rattle.lexicon.specs.Laws.{NothingIsLeft, WordsEnter, LoadsEnter, LoadsLeave, SystemWordsAreOutsideOrLook};

/// What is left to do, as words are entered by themselves and loads come and go.
pub fn levels()
    ensures nothing { NothingIsLeft }
    ensures words { WordsEnter }
    ensures loads { LoadsEnter }
    ensures left { LoadsLeave }
{}

/// The machine calls no system word, and leaves the cell of one that only looks.
pub fn system_words()
    ensures { SystemWordsAreOutsideOrLook }
{}

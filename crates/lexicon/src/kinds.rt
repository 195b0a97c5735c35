//! What the kind of a word says, and what a refused name is told as.
ghost use Rattle.std.specs.Prelude.{◌≡◌, Some, None};
ghost use Rattle.dictionary.specs.Words.{Created, Constant, Vocabulary};
ghost use Rattle.lexicon.specs.Promise.{fault_of};
ghost use Rattle.lexicon.specs.Running.{called_kind};
ghost use Rattle.lexicon.specs.Adding.{name_fault};
ghost use Rattle.dictionary.specs.declared.words.Callee.TheVariants as told;
ghost use Rattle.dictionary.specs.Callees.{callee_kind};
ghost use Rattle.dictionary.specs.Dictionary.{kind_of as place_kind, body_of as place_body};
ghost use Rattle.lexicon.specs.Kinds.{data_address, makes_vocabulary, data_field};

use crate::language::LexiconRefusal;
use cell_machine::calls::Called;
use dictionary::{DictionaryFault, Kind};

/// What a word of this kind is to the machine, where it has no body and isn't a mere cell.
#[inline(always)]
pub(crate) fn called_rarely(kind: Kind) -> Called
    requires { callee_kind (place_kind kind) ≡ told.Other }
    ensures { result ≡ called_kind (place_kind kind) }
{
    match kind {
        Kind::Created(data_address, Some(place)) => Called::Part {
            place,
            data_address,
        },
        Kind::Primitive => Called::Outside,
        Kind::Vocabulary => Called::Outside,
        Kind::Created(_, None) => unreachable!(),
        Kind::Colon(_) => unreachable!(),
        Kind::Constant(_) => unreachable!(),
    }
}

/// Whether a word of this kind names a vocabulary that `VOCABULARY` made.
pub(crate) fn makes_vocabulary(kind: Kind) -> bool
    ensures { result ≡ makes_vocabulary (place_kind kind) }
{
    match kind {
        Kind::Vocabulary => true,
        _ => false,
    }
}

/// The data address of a word of this kind, if it has one.
pub(crate) fn data_field(kind: Kind) -> Option<u16>
    ensures { result ≡ data_field (place_kind kind) }
{
    match kind {
        Kind::Created(data_address, _) => Some(data_address),
        _ => None,
    }
}

/// Where the body begins, if there is one.
pub(crate) fn place_of(kind: Kind) -> Option<u16>
    ensures { result ≡ place_body (place_kind kind) }
{
    match kind {
        Kind::Colon(place) => Some(place),
        _ => None,
    }
}

/// Why a new word's name or the room for it was refused.
pub(crate) fn name_refusal(fault: DictionaryFault) -> LexiconRefusal
    ensures { fault_of result ≡ name_fault fault }
{
    match fault {
        DictionaryFault::NameLength => LexiconRefusal::Name,
        _ => LexiconRefusal::DictionaryFull,
    }
}

//! Laws of the definitions that the contracts cite. The functions do nothing; a caller's proof cites their clauses.
//! Rule: SEMANTICS, Laws.
ghost use Rattle.std.specs.Prelude.{◌≡◌, ◌≤◌, ℕ, List};
ghost use Rattle.number_io.specs.Writing.{IsWritten, digits_of};
ghost use Rattle.number_io.specs.Taking.{IsTaking, IsTextTaking, skipped, skip, from, word_of, text_of};

/// The digits of a number sum up to it by the powers of the base, each is below the base, there is at least one, and
/// none but that of 0 leads with a zero.
#[inline]
pub fn digits_sum_up()
    ensures { (base n : ℕ) → 2 ≤ base → IsWritten base n (digits_of base n) }
{}

/// No other digits do so: a number is written in one way alone.
#[inline]
pub fn digits_are_unique()
    ensures { (base n : ℕ) (digits : List ℕ) → 2 ≤ base → IsWritten base n digits → digits ≡ digits_of base n }
{}

/// A taken word cuts its whole text in three: delimiters, the word without any, and a rest that is empty or begins
/// with one. The word is empty only where the rest is.
#[inline]
pub fn words_cut_texts()
    ensures { (c : ℕ) (text : List ℕ) → IsTaking c text (skipped c text) (word_of c text) (from c (skip c text)) }
{}

/// A taken text cuts its whole text in two: bytes without a delimiter, and a rest that is empty or begins with one.
#[inline]
pub fn texts_cut_texts()
    ensures { (c : ℕ) (text : List ℕ) → IsTextTaking c text (text_of c text) (from c text) }
{}

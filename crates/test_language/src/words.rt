//! Tests of what no contract says: that memory which is there is found; and each call once, with what is then run.
//!
//! The system words' tokens: 2 is `*`, 5 `+`, 23 `@`, 36 `DUP`, 38 `EXIT`, 90 `FORGET`, 111 `COMPILE` and 113 `CREATE`. `#1` is
//! the first word that is made.

use calls::follow_new;
use std::test::Fail;

mod calls;
mod desk;

#[test]
fn the_system_words_are_there(rt: HostRuntime) -> Result<(), Fail> {
    let text = "len | #0
find [DUP] | 36
find [dup] | none
find_in_current [!] | 1
is_immediate 115 | true
is_immediate 36 | false
is_vocabulary 91 | false
data_address 36 | none
here | 1280
is_open | false";
    follow_new(&rt, rt.alloc(), text)
}

#[test]
fn a_definition_is_run_and_calls_another(rt: HostRuntime) -> Result<(), Fail> {
    let text = "begin [SQUARE]
compile 36
compile 2
find [SQUARE] | none
finish
begin [AREA]
compile #1
literal 3
compile 2
structure IF
literal 7
structure THEN
finish
find [AREA] | #2
push 5
does #2
pop | 7
push 5
does #1
pop | 25";
    follow_new(&rt, rt.alloc(), text)
}

#[test]
fn refusals_come_in_their_order(rt: HostRuntime) -> Result<(), Fail> {
    let text = "finish | NoDefinition
literal 1 | NoDefinition
immediate | Protected
forget #0 | Protected
create [] | Name
begin [X]
create [] | DefinitionOpen
begin [Y] | DefinitionOpen
immediate | DefinitionOpen
structure THEN | Unbalanced
structure DO
compile 38 | Unbalanced
finish | Unbalanced
abandon
is_open | false
len | #0";
    follow_new(&rt, rt.alloc(), text)
}

#[test]
fn words_with_and_without_data(rt: HostRuntime) -> Result<(), Fail> {
    let text = "set_here 1300
create [AT]
constant 10 [TEN]
immediate
vocabulary [INNER]
data_address #1 | 1300
is_immediate #2 | true
is_vocabulary #3 | true
does #1
pop | 1300
does #2
pop | 10
asks #3 | Word #3";
    follow_new(&rt, rt.alloc(), text)
}

#[test]
fn vocabularies_hide_and_show(rt: HostRuntime) -> Result<(), Fail> {
    let text = "vocabulary [INNER]
first #1
definitions
constant 1 [DUP]
find [DUP] | #2
forth
find [DUP] | 36
find_in_current [DUP] | #2
forget #1 | Protected";
    follow_new(&rt, rt.alloc(), text)
}

#[test]
fn texts_come_back(rt: HostRuntime) -> Result<(), Fail> {
    let text = "begin [HI]
text [hello]
finish
print #1 | 5 [hello]
ends";
    follow_new(&rt, rt.alloc(), text)
}

/// `: CELL-OF CREATE DOES> @ + ;`, and a word made by it.
#[test]
fn a_part_is_given_and_run(rt: HostRuntime) -> Result<(), Fail> {
    let text = "begin [CELL-OF]
compile 113
structure DOES>
compile 23
compile 5
finish
asks #1 | Word 113
create [NOTHING]
give
data_address #2 | 1280
push 8
does #2
pop | 8
forget #1
len | #0";
    follow_new(&rt, rt.alloc(), text)
}

/// `: MACRO COMPILE DUP 1 ;` adds to a definition while it runs.
#[test]
fn a_running_body_adds_to_a_definition(rt: HostRuntime) -> Result<(), Fail> {
    let text = "begin [MACRO]
compile 111
compile 36
literal 1
finish
begin [USER]
asks #1 | Compile 36
compile 36
ends
pop | 1
finish
push 4
does #2
pop | 4
pop | 4";
    follow_new(&rt, rt.alloc(), text)
}

/// While a word that asks for `FORGET` runs, a word can be forgotten only where it is newer than all that run: not the one that asks, nor the
/// one that called it, nor an older one.
#[test]
fn what_runs_is_not_forgotten(rt: HostRuntime) -> Result<(), Fail> {
    let text = "create [OLD]
set_here 1400
begin [CLEAN]
compile 90
literal 6
finish
begin [TWICE]
compile #2
finish
set_here 1500
constant 1 [NEW]
asks #3 | Word 90
forget #1 | Protected
forget #2 | Protected
forget #3 | Protected
forget #4
here | 1500
ends
pop | 6
forget #2
here | 1400
len | #1";
    follow_new(&rt, rt.alloc(), text)
}

//! The arguments and options of the commands.
//! Rule: MANUAL, All commands.
ghost use Rattle.std.specs.Prelude.{◌≡◌, false, Some};
ghost use Rattle.clap.specs.Words.{new_rule, rule_of};
ghost use Rattle.clap.specs.declared.builder.action.ArgAction.TheVariants.{Set};
ghost use Rattle.command_line.specs.Commands.{asked_blocks, asked_file, asked_files, asked_layout, block, blocks, check, each_block, file, files, first_block, flag, image, last_block, load, many, new_image, number, old_image, raw, steps, strict, trace, wanted, undo};

use clap::{Arg, ArgAction};
use std::alloc::Global;

/// An argument that has to be there.
fn wanted_argument<'a>(alloc: Global, id: &'a str, help: &'a str) -> Arg<'a>
    ensures rule { rule_of result ≡ wanted id.now }
    ensures local { result.global ≡ false }
{
    Arg::new(alloc, id)
        .required(true)
        .action(ArgAction::Set)
        .help(help)
}

/// A number of a block.
fn number_argument<'a>(alloc: Global, id: &'a str, help: &'a str) -> Arg<'a>
    ensures rule { rule_of result ≡ number id.now }
    ensures local { result.global ≡ false }
{
    wanted_argument(alloc, id, help).value_parser(clap::value_parser!(u16))
}

/// An option without a value.
fn flag_option<'a>(alloc: Global, id: &'a str, help: &'a str) -> Arg<'a>
    ensures rule { rule_of result ≡ flag id.now }
    ensures local { result.global ≡ false }
{
    Arg::new(alloc, id)
        .long(id)
        .action(ArgAction::SetTrue)
        .help(help)
}

pub(super) fn image_argument<'a>(alloc: Global) -> Arg<'a>
    ensures rule { rule_of result ≡ image }
    ensures local { result.global ≡ false }
{
    wanted_argument(alloc, "IMAGE", "The file of the image")
}

pub(super) fn old_argument<'a>(alloc: Global) -> Arg<'a>
    ensures rule { rule_of result ≡ old_image }
    ensures local { result.global ≡ false }
{
    wanted_argument(alloc, "OLD", "The file of an image of an older layout")
}

pub(super) fn source_image_argument<'a>(alloc: Global) -> Arg<'a>
    ensures rule { rule_of result ≡ old_image }
    ensures local { result.global ≡ false }
{
    wanted_argument(alloc, "OLD", "The file of an image, which is only read")
}

pub(super) fn new_argument<'a>(alloc: Global, help: &'a str) -> Arg<'a>
    ensures rule { rule_of result ≡ new_image }
    ensures local { result.global ≡ false }
{
    wanted_argument(alloc, "NEW", help)
}

pub(super) fn block_argument<'a>(alloc: Global) -> Arg<'a>
    ensures rule { rule_of result ≡ block }
    ensures local { result.global ≡ false }
{
    number_argument(alloc, "BLOCK", "The number of the block, from 0")
}

pub(super) fn first_argument<'a>(alloc: Global) -> Arg<'a>
    ensures rule { rule_of result ≡ first_block }
    ensures local { result.global ≡ false }
{
    number_argument(alloc, "FIRST", "The number of the first block, from 0")
}

pub(super) fn last_argument<'a>(alloc: Global) -> Arg<'a>
    ensures rule { rule_of result ≡ last_block }
    ensures local { result.global ≡ false }
{
    number_argument(alloc, "LAST", "The number of the last block")
}

pub(super) fn file_argument<'a>(alloc: Global) -> Arg<'a>
    ensures rule { rule_of result ≡ file }
    ensures local { result.global ≡ false }
{
    wanted_argument(
        alloc,
        "FILE",
        "A text of at most 16 lines of at most 64 bytes",
    )
}

/// An argument that takes as many values as are given.
fn many<'a>(argument: Arg<'a>) -> Arg<'a>
    ensures rule { rule_of result ≡ many (rule_of argument.entry) }
    ensures local { result.global ≡ argument.entry.global }
{
    argument.num_args(1..)
}

pub(super) fn source_argument<'a>(alloc: Global) -> Arg<'a>
    ensures rule { rule_of result ≡ files }
    ensures local { result.global ≡ false }
{
    many(file_argument(alloc)).help(
        "A text of lines of at most 64 bytes, 16 for a block; each file begins a block",
    )
}

fn asked_file_argument<'a>(alloc: Global) -> Arg<'a>
    ensures rule { rule_of result ≡ asked_file }
    ensures local { result.global ≡ false }
{
    Arg::new(alloc, "FILE").action(ArgAction::Set)
}

pub(super) fn script_argument<'a>(alloc: Global) -> Arg<'a>
    ensures rule { rule_of result ≡ asked_files }
    ensures local { result.global ≡ false }
{
    many(asked_file_argument(alloc)).help(
        "Files whose lines are run; standard input's are without one, and behind a last -",
    )
}

/// An option with a value, which may be left out.
fn value_option<'a>(alloc: Global, id: &'a str, value: &'a str, help: &'a str) -> Arg<'a>
    ensures rule { rule_of result ≡ record (new_rule id.now) { long = Some id.now; value_names = 1; action = Some Set } }
    ensures local { result.global ≡ false }
{
    Arg::new(alloc, id)
        .long(id)
        .value_name(value)
        .action(ArgAction::Set)
        .help(help)
}

pub(super) fn load_option<'a>(alloc: Global) -> Arg<'a>
    ensures rule { rule_of result ≡ load }
    ensures local { result.global ≡ false }
{
    let help = "Load a block before the first line";
    value_option(alloc, "load", "BLOCK", help).value_parser(clap::value_parser!(u16))
}

pub(super) fn blocks_option<'a>(alloc: Global) -> Arg<'a>
    ensures rule { rule_of result ≡ blocks }
    ensures local { result.global ≡ false }
{
    asked_blocks_option(alloc, "How many blocks the image has, 32 to 3840").required(true)
}

/// `--blocks` where it may be left out.
pub(super) fn asked_blocks_option<'a>(alloc: Global, help: &'a str) -> Arg<'a>
    ensures rule { rule_of result ≡ asked_blocks }
    ensures local { result.global ≡ false }
{
    value_option(alloc, "blocks", "N", help).value_parser(clap::value_parser!(u16).range(32..=3840))
}

pub(super) fn layout_option<'a>(alloc: Global, help: &'a str) -> Arg<'a>
    ensures rule { rule_of result ≡ asked_layout }
    ensures local { result.global ≡ false }
{
    value_option(alloc, "layout", "L", help)
        .value_parser(clap::value_parser!(u16).range(2..=3))
        .default_value("2")
}

pub(super) fn steps_option<'a>(alloc: Global) -> Arg<'a>
    ensures rule { rule_of result ≡ steps }
    ensures local { result.global ≡ false }
{
    let help = "How many steps a line may take, 1 to 1000000000";
    value_option(alloc, "steps", "S", help)
        .value_parser(clap::value_parser!(u32).range(1..=1_000_000_000))
        .default_value("1000000")
}

pub(super) fn strict_option<'a>(alloc: Global) -> Arg<'a>
    ensures rule { rule_of result ≡ strict }
    ensures local { result.global ≡ false }
{
    flag_option(
        alloc,
        "strict",
        "End with the first line that fails, in status 1",
    )
}

pub(super) fn trace_option<'a>(alloc: Global) -> Arg<'a>
    ensures rule { rule_of result ≡ trace }
    ensures local { result.global ≡ false }
{
    flag_option(
        alloc,
        "trace",
        "Tell on standard error which line failed, and where a fault came",
    )
}

pub(super) fn undo_option<'a>(alloc: Global) -> Arg<'a>
    ensures rule { rule_of result ≡ undo }
    ensures local { result.global ≡ false }
{
    flag_option(
        alloc,
        "undo",
        "Take back what was changed and not saved where a line fails",
    )
}

pub(super) fn raw_option<'a>(alloc: Global) -> Arg<'a>
    ensures rule { rule_of result ≡ raw }
    ensures local { result.global ≡ false }
{
    flag_option(alloc, "raw", "Blocks as they are, 1024 bytes each")
}

pub(super) fn check_option<'a>(alloc: Global) -> Arg<'a>
    ensures rule { rule_of result ≡ check }
    ensures local { result.global ≡ false }
{
    flag_option(
        alloc,
        "check",
        "Tell what looks wrong in FILE, and write nothing",
    )
}

pub(super) fn each_block_option<'a>(alloc: Global) -> Arg<'a>
    ensures rule { rule_of result ≡ each_block }
    ensures local { result.global ≡ false }
{
    flag_option(
        alloc,
        "blocks",
        "Tell number and SHA-256 of each block instead",
    )
}

//! The words of a command line are read.
//! Rule: MANUAL, Commands; MANUAL, All commands.
ghost use Rattle.std.specs.Prelude.{◌≡◌, ◌≢◌, ◌++◌, ◌∷◌, ◌≤◌, ℕ, List, [], false, Some, map, codes, IfOk, IfSome};
ghost use Rattle.std.specs.Bool.{OnTrue, OnFalse};
ghost use Rattle.clap.specs.Words.{App, FailsBy, Rule, Text, app_of, fault_of, found_of, new_app, rows_of, rule_of, subcommand_rows_of, with_rule, with_subcommand};
ghost use Rattle.clap.specs.declared.builder.command.Command.TheViews.{out-Command};
ghost use Rattle.command_line.specs.Commands.{new_app_of, run_app, list_app, put_app, export_app, import_app, check_app, upgrade_app, program, forth83, over_blocks, ReadsAs, SufficesFor, HasFlag, HasForm, HasLayout, HasNumber, HasScript, HasText, HasTexts, Orders, IsOrderOf, IsInRange};
ghost use Rattle.command_line.specs.Commands.{copy_app, salvage_app, making, HasAsked, HasBlocks, AreFiles, AreInRange, diff_app, input, looking};

use super::arguments::{
    asked_blocks_option, block_argument, blocks_option, check_option, each_block_option,
    file_argument, first_argument, image_argument, last_argument, layout_option, load_option,
    new_argument, old_argument, raw_option, script_argument, source_argument,
    source_image_argument, steps_option, strict_option, trace_option, undo_option,
};
use super::orders::{Form, Layout, Order, Script};
use clap::{Arg, ArgMatches, Command, Error};
use std::alloc::{AllocError, Global};
use std::convert::AsStr;

/// The version of the program, which `--version` prints beside its name.
pub const VERSION: &str = "0.1.0";

/// What stands for the input among the files of a script.
const INPUT: &str = "-";

/// What help tells of a file that is made.
const MADE: &str = "The file that is made";

/// The command that the words give, of which the first is the name of the program; with that alone, a session in
/// memory. Its numbers lie in their ranges: blocks of an image 32 to 3,840, steps 1 to 1,000,000,000. What the words
/// can't mean is refused with a text for the user, and so are `help` and `--help`, whose text is the help, and
/// `--version`, whose text is the version; and so is every command where memory is refused.
/// Rule: MANUAL, Commands; MANUAL, All commands.
pub fn order<'a, S: AsStr>(alloc: Global, words: &'a [S]) -> Result<Order<'a>, Error>
    ensures given { IfOk result (λ o. IsOrderOf (map S.text words.entry.now) o) }
    ensures ranges { IfOk result (λ o. IsInRange o) }
    // An order is given only where the command refuses nothing. What is refused is so for its reasons, or for want of memory.
    ensures fits { FailsBy (fault_of forth83 (map S.text words.entry.now)) result }
{
    let mut command = command_for(alloc, words)?;
    let matches = command.try_get_matches_from_mut(words)?;
    order_found(alloc, &matches)
}

/// The order that was found in the words. An error is want of memory.
fn order_found<'a>(alloc: Global, matches: &ArgMatches<'a>) -> Result<Order<'a>, Error>
    ensures given { IfOk result (λ o. Orders (subcommand_rows_of matches.now) o) }
    ensures ranges { IfOk result (λ o. IsInRange o) }
    ensures fits { FailsBy [] result }
{
    let Some((name, given)) = matches.subcommand() else {
        return Ok(Order::Memory);
    };
    match order_of(alloc, name, given) {
        Some(order) => Ok(order),
        // After a parse each argument is there and in its range, so it is memory for the list of files that was refused.
        None => Err(Error::from(AllocError)),
    }
}

/// The order of a command, where its arguments are there and in their ranges, as they are after each parse. None also
/// where memory for a list of files is refused.
fn order_of<'a>(alloc: Global, name: &str, given: &ArgMatches<'a>) -> Option<Order<'a>>
    ensures given { IfSome result (λ o. Orders (Some (name.now, rows_of (found_of given.now))) o) }
    ensures ranges { IfSome result (λ o. IsInRange o) }
{
    match name {
        "upgrade" => order_of_upgrade(given),
        "copy" => order_of_copy(given),
        "salvage" => order_of_salvage(given),
        "diff" => order_of_diff(given),
        _ => order_over_image(alloc, name, given),
    }
}

/// The order of an upgrade.
fn order_of_upgrade<'a>(given: &ArgMatches<'a>) -> Option<Order<'a>>
    ensures given { IfSome result (λ o. Orders (Some (codes "upgrade", rows_of (found_of given.now))) o) }
    ensures ranges { IfSome result (λ o. IsInRange o) }
{
    let old = given.get_str("OLD")?;
    let new = given.get_str("NEW")?;
    Some(Order::Upgrade(old, new, layout_of(given)?))
}

/// The order of a copy.
fn order_of_copy<'a>(given: &ArgMatches<'a>) -> Option<Order<'a>>
    ensures given { IfSome result (λ o. Orders (Some (codes "copy", rows_of (found_of given.now))) o) }
    ensures ranges { IfSome result (λ o. IsInRange o) }
{
    let old = given.get_str("OLD")?;
    let new = given.get_str("NEW")?;
    Some(Order::Copy(old, new, asked_blocks_of(given)?))
}

/// The order of a salvage.
fn order_of_salvage<'a>(given: &ArgMatches<'a>) -> Option<Order<'a>>
    ensures given { IfSome result (λ o. Orders (Some (codes "salvage", rows_of (found_of given.now))) o) }
    ensures ranges { IfSome result (λ o. IsInRange o) }
{
    let old = given.get_str("OLD")?;
    let new = given.get_str("NEW")?;
    Some(Order::Salvage(old, new, asked_blocks_of(given)?))
}

/// The order of a comparison.
fn order_of_diff<'a>(given: &ArgMatches<'a>) -> Option<Order<'a>>
    ensures given { IfSome result (λ o. Orders (Some (codes "diff", rows_of (found_of given.now))) o) }
    ensures ranges { IfSome result (λ o. IsInRange o) }
{
    let old = given.get_str("OLD")?;
    let new = given.get_str("NEW")?;
    Some(Order::Diff(old, new))
}

/// The order of a command over one image.
fn order_over_image<'a>(alloc: Global, name: &str, given: &ArgMatches<'a>) -> Option<Order<'a>>
    ensures given { IfSome result (λ o. Orders (Some (name.now, rows_of (found_of given.now))) o) }
    ensures ranges { IfSome result (λ o. IsInRange o) }
{
    let image = given.get_str("IMAGE")?;
    match name {
        "new" => order_of_new(image, given),
        "run" => order_of_run(alloc, image, given),
        "check" => order_of_check(image, given),
        "list" => Some(Order::List(image, number_of(given, "BLOCK")?)),
        "put" => Some(Order::Put(image, number_of(given, "BLOCK")?, given.get_str("FILE")?)),
        _ => order_over_blocks(alloc, name, image, given),
    }
}

/// The order of a new image.
fn order_of_new<'a>(image: &'a str, given: &ArgMatches<'a>) -> Option<Order<'a>>
    requires { HasText (rows_of (found_of given.now)) (codes "IMAGE") image.now }
    ensures given { IfSome result (λ o. Orders (Some (codes "new", rows_of (found_of given.now))) o) }
    ensures ranges { IfSome result (λ o. IsInRange o) }
{
    let blocks = blocks_of(given)?;
    Some(Order::New(image, blocks, layout_of(given)?))
}

/// The order of a run.
fn order_of_run<'a>(alloc: Global, image: &'a str, given: &ArgMatches<'a>) -> Option<Order<'a>>
    requires { HasText (rows_of (found_of given.now)) (codes "IMAGE") image.now }
    ensures given { IfSome result (λ o. Orders (Some (codes "run", rows_of (found_of given.now))) o) }
    ensures ranges { IfSome result (λ o. IsInRange o) }
{
    let steps = steps_of(given)?;
    Some(Order::Run(image, steps, script_of(alloc, given)?))
}

/// How a session is to be run. None also where memory for the list of its files is refused.
fn script_of<'a>(alloc: Global, given: &ArgMatches<'a>) -> Option<Script<'a>>
    ensures { IfSome result (λ script. HasScript (rows_of (found_of given.now)) script) }
{
    let load = load_of(given)?;
    let is_strict = flag_of(given, "strict")?;
    let is_traced = flag_of(given, "trace")?;
    let undoes = flag_of(given, "undo")?;
    let mut files = texts_of(alloc, given, "FILE")?;
    let goes_on = take_input(&mut files);
    Some(Script {
        load,
        files,
        goes_on,
        is_strict,
        is_traced,
        undoes,
    })
}

/// The block that is to be loaded, where one is given.
fn load_of(given: &ArgMatches<'_>) -> Option<Option<u16>>
    ensures { IfSome result (λ asked. HasAsked (rows_of (found_of given.now)) (codes "load") asked) }
{
    match given.get_str("load") {
        Some(_) => Some(Some(number_of(given, "load")?)),
        None => Some(None),
    }
}

/// All texts of an argument, in their order. None where memory is refused.
fn texts_of<'a>(alloc: Global, given: &ArgMatches<'a>, id: &str) -> Option<Vec<&'a str>>
    ensures { IfSome result (λ texts. HasTexts (rows_of (found_of given.now)) id.now texts.items) }
{
    let mut texts = Vec::new(alloc);
    match given.get_strs(id) {
        Some(given) => match texts.extend_from_slice(given) {
            Ok(()) => Some(texts),
            Err(AllocError) => None,
        },
        None => Some(texts),
    }
}

/// Takes the input away from the end of these names, where it is the last one, and answers whether its lines are run:
/// there, and where no file is named.
fn take_input(names: &mut Vec<&str>) -> bool
    ensures { AreFiles (map (λ text. text.now) names.old.items) (map (λ text. text.now) names.new.items) result }
{
    if names.is_empty() {
        return true;
    }
    if !is_input_last(names.as_slice()) {
        return false;
    }
    names.pop();
    true
}

/// Whether the last one of these names stands for the input.
fn is_input_last(names: &[&str]) -> bool
    ensures yes { OnTrue result ((front : List Text) × (map (λ text. text.now) names.now ≡ front ++ input ∷ [])) }
    ensures no { OnFalse result ((front : List Text) → map (λ text. text.now) names.now ≢ front ++ input ∷ []) }
{
    match names.split_last() {
        Some((last, _)) => is_input(*last),
        None => false,
    }
}

/// Whether a name stands for the input.
fn is_input(name: &str) -> bool
    ensures yes { OnTrue result (name.now ≡ input) }
    ensures no { OnFalse result (name.now ≢ input) }
{
    name == INPUT
}

/// Whether a flag is given. After a parse it always has one of its two texts.
fn flag_of(given: &ArgMatches<'_>, id: &str) -> Option<bool>
    ensures { IfSome result (λ is_given. HasFlag (rows_of (found_of given.now)) id.now is_given) }
{
    given.get_one::<bool>(id)
}

/// The order of a check, of an image or of each of its blocks.
fn order_of_check<'a>(image: &'a str, given: &ArgMatches<'a>) -> Option<Order<'a>>
    requires { HasText (rows_of (found_of given.now)) (codes "IMAGE") image.now }
    ensures given { IfSome result (λ o. Orders (Some (codes "check", rows_of (found_of given.now))) o) }
    ensures ranges { IfSome result (λ o. IsInRange o) }
{
    let is_of_blocks = flag_of(given, "blocks")?;
    if is_of_blocks {
        Some(Order::Digests(image))
    } else {
        Some(Order::Check(image))
    }
}

/// The order of a command over many blocks.
fn order_over_blocks<'a>(
    alloc: Global,
    name: &str,
    image: &'a str,
    given: &ArgMatches<'a>,
) -> Option<Order<'a>>
    requires { HasText (rows_of (found_of given.now)) (codes "IMAGE") image.now }
    ensures given { IfSome result (λ o. Orders (Some (name.now, rows_of (found_of given.now))) o) }
    ensures ranges { IfSome result (λ o. IsInRange o) }
{
    match name {
        "export" => Some(Order::Export(
            image,
            number_of(given, "FIRST")?,
            number_of(given, "LAST")?,
            form_of(given)?,
        )),
        "import" => order_of_import(alloc, image, number_of(given, "FIRST")?, given),
        _ => None,
    }
}

/// The order of an import, or of a look at one.
fn order_of_import<'a>(
    alloc: Global,
    image: &'a str,
    first: u16,
    given: &ArgMatches<'a>,
) -> Option<Order<'a>>
    requires image { HasText (rows_of (found_of given.now)) (codes "IMAGE") image.now }
    requires first { HasNumber (rows_of (found_of given.now)) (codes "FIRST") first }
    ensures given { IfSome result (λ o. Orders (Some (codes "import", rows_of (found_of given.now))) o) }
    ensures ranges { IfSome result (λ o. IsInRange o) }
{
    let form = form_of(given)?;
    let is_checked = flag_of(given, "check")?;
    let files = texts_of(alloc, given, "FILE")?;
    if is_checked {
        Some(Order::CheckImport(image, first, files, form))
    } else {
        Some(Order::Import(image, first, files, form))
    }
}

fn blocks_of(given: &ArgMatches<'_>) -> Option<u16>
    ensures number { IfSome result (λ n. HasNumber (rows_of (found_of given.now)) (codes "blocks") n) }
    ensures many { IfSome result (λ n. 32 ≤ n) }
    ensures few { IfSome result (λ n. n ≤ 3840) }
{
    match given.get_one("blocks")? {
        blocks @ 32..=3840 => Some(blocks),
        _ => None,
    }
}

/// The number of blocks, where one is given.
fn asked_blocks_of(given: &ArgMatches<'_>) -> Option<Option<u16>>
    ensures given { IfSome result (λ asked. HasBlocks (rows_of (found_of given.now)) asked) }
    ensures ranges { IfSome result (λ asked. AreInRange asked) }
{
    match given.get_str("blocks") {
        Some(_) => Some(Some(blocks_of(given)?)),
        None => Some(None),
    }
}

fn layout_of(given: &ArgMatches<'_>) -> Option<Layout>
    ensures { IfSome result (λ l. HasLayout (rows_of (found_of given.now)) l) }
{
    match number_of(given, "layout")? {
        2 => Some(Layout::Two),
        3 => Some(Layout::Three),
        _ => None,
    }
}

fn steps_of(given: &ArgMatches<'_>) -> Option<u32>
    ensures number { IfSome result (λ n. HasNumber (rows_of (found_of given.now)) (codes "steps") n) }
    ensures many { IfSome result (λ n. 1 ≤ n) }
    ensures few { IfSome result (λ n. n ≤ 1000000000) }
{
    match given.get_one("steps")? {
        steps @ 1..=1_000_000_000 => Some(steps),
        _ => None,
    }
}

fn number_of(given: &ArgMatches<'_>, id: &str) -> Option<u16>
    ensures { IfSome result (λ n. HasNumber (rows_of (found_of given.now)) id.now n) }
{
    given.get_one(id)
}

fn form_of(given: &ArgMatches<'_>) -> Option<Form>
    ensures { IfSome result (λ form. HasForm (rows_of (found_of given.now)) form) }
{
    let is_raw = flag_of(given, "raw")?;
    if is_raw {
        Some(Form::Raw)
    } else {
        Some(Form::Text)
    }
}

/// A command with its first argument.
fn command_with<'a>(
    alloc: Global,
    name: &'a str,
    about: &'a str,
    argument: Arg<'a>,
) -> Result<Command<'a>, AllocError>
    ensures app { (rule : Rule) → rule_of argument.entry ≡ rule → argument.entry.global ≡ false → IfOk result (λ c. app_of c ≡ with_rule (new_app name.now) rule) }
    ensures local { argument.entry.global ≡ false → IfOk result (λ c. (out-Command c).has_globals ≡ false) }
{
    Command::new(alloc, name).about(about).arg(argument)
}

/// Adds an argument to a command that was made, or couldn't be. (A `?` costs a proof more, the more values are there:
/// here there are two.)
fn with_argument<'a>(
    made: Result<Command<'a>, AllocError>,
    argument: Arg<'a>,
) -> Result<Command<'a>, AllocError>
    ensures app { (app : App) (rule : Rule) → IfOk made.entry (λ c. app_of c ≡ app) → rule_of argument.entry ≡ rule → argument.entry.global ≡ false
        → IfOk result (λ c. app_of c ≡ with_rule app rule) }
    ensures local { IfOk made.entry (λ c. (out-Command c).has_globals ≡ false) → argument.entry.global ≡ false
        → IfOk result (λ c. (out-Command c).has_globals ≡ false) }
{
    made?.arg(argument)
}

fn new_command<'a>(alloc: Global) -> Result<Command<'a>, AllocError>
    ensures app { IfOk result (λ c. app_of c ≡ new_app_of) }
    ensures local { IfOk result (λ c. (out-Command c).has_globals ≡ false) }
{
    let command = command_with(
        alloc,
        "new",
        "Make an image of blank blocks, in a new file",
        image_argument(alloc),
    );
    let command = with_argument(command, blocks_option(alloc));
    with_argument(
        command,
        layout_option(alloc, "The layout of the image, 2 or 3"),
    )
}

fn run_command<'a>(alloc: Global) -> Result<Command<'a>, AllocError>
    ensures app { IfOk result (λ c. app_of c ≡ run_app) }
    ensures local { IfOk result (λ c. (out-Command c).has_globals ≡ false) }
{
    let command = command_with(
        alloc,
        "run",
        "Run the lines of files, or of standard input, over an image",
        image_argument(alloc),
    );
    let command = with_argument(command, script_argument(alloc));
    let command = with_argument(command, load_option(alloc));
    let command = with_argument(command, steps_option(alloc));
    let command = with_argument(command, strict_option(alloc));
    let command = with_argument(command, trace_option(alloc));
    with_argument(command, undo_option(alloc))
}

fn list_command<'a>(alloc: Global) -> Result<Command<'a>, AllocError>
    ensures app { IfOk result (λ c. app_of c ≡ list_app) }
    ensures local { IfOk result (λ c. (out-Command c).has_globals ≡ false) }
{
    let command = command_with(
        alloc,
        "list",
        "Print a block as 16 lines of 64 characters",
        image_argument(alloc),
    );
    with_argument(command, block_argument(alloc))
}

fn put_command<'a>(alloc: Global) -> Result<Command<'a>, AllocError>
    ensures app { IfOk result (λ c. app_of c ≡ put_app) }
    ensures local { IfOk result (λ c. (out-Command c).has_globals ≡ false) }
{
    let command = command_with(
        alloc,
        "put",
        "Make the lines of a file a block of an image",
        image_argument(alloc),
    );
    let command = with_argument(command, block_argument(alloc));
    with_argument(command, file_argument(alloc))
}

fn export_command<'a>(alloc: Global) -> Result<Command<'a>, AllocError>
    ensures app { IfOk result (λ c. app_of c ≡ export_app) }
    ensures local { IfOk result (λ c. (out-Command c).has_globals ≡ false) }
{
    let command = command_with(
        alloc,
        "export",
        "Print blocks as 16 lines each",
        image_argument(alloc),
    );
    let command = with_argument(command, first_argument(alloc));
    let command = with_argument(command, last_argument(alloc));
    with_argument(command, raw_option(alloc))
}

fn import_command<'a>(alloc: Global) -> Result<Command<'a>, AllocError>
    ensures app { IfOk result (λ c. app_of c ≡ import_app) }
    ensures local { IfOk result (λ c. (out-Command c).has_globals ≡ false) }
{
    let command = command_with(
        alloc,
        "import",
        "Make the lines of files blocks of an image, in one save",
        image_argument(alloc),
    );
    let command = with_argument(command, first_argument(alloc));
    let command = with_argument(command, source_argument(alloc));
    let command = with_argument(command, raw_option(alloc));
    with_argument(command, check_option(alloc))
}

fn check_command<'a>(alloc: Global) -> Result<Command<'a>, AllocError>
    ensures app { IfOk result (λ c. app_of c ≡ check_app) }
    ensures local { IfOk result (λ c. (out-Command c).has_globals ≡ false) }
{
    let command = command_with(
        alloc,
        "check",
        "Tell what an image holds, by reading alone",
        image_argument(alloc),
    );
    with_argument(command, each_block_option(alloc))
}

fn diff_command<'a>(alloc: Global) -> Result<Command<'a>, AllocError>
    ensures app { IfOk result (λ c. app_of c ≡ diff_app) }
    ensures local { IfOk result (λ c. (out-Command c).has_globals ≡ false) }
{
    let command = command_with(
        alloc,
        "diff",
        "Tell in which lines the blocks of two images differ, by reading alone",
        source_image_argument(alloc),
    );
    with_argument(
        command,
        new_argument(alloc, "The file of another image, which is only read too"),
    )
}

fn upgrade_command<'a>(alloc: Global) -> Result<Command<'a>, AllocError>
    ensures app { IfOk result (λ c. app_of c ≡ upgrade_app) }
    ensures local { IfOk result (λ c. (out-Command c).has_globals ≡ false) }
{
    let command = command_with(
        alloc,
        "upgrade",
        "Make an image of layout 2 or 3, in a new file, of the blocks of an older one",
        old_argument(alloc),
    );
    let command = with_argument(command, new_argument(alloc, MADE));
    with_argument(
        command,
        layout_option(
            alloc,
            "The layout of the new image: 2, of one of layout 1, or 3, of one of layout 1 or 2",
        ),
    )
}

fn copy_command<'a>(alloc: Global) -> Result<Command<'a>, AllocError>
    ensures app { IfOk result (λ c. app_of c ≡ copy_app) }
    ensures local { IfOk result (λ c. (out-Command c).has_globals ≡ false) }
{
    let command = command_with(
        alloc,
        "copy",
        "Make an image, in a new file, of the blocks of another one",
        source_image_argument(alloc),
    );
    let command = with_argument(command, new_argument(alloc, MADE));
    with_argument(
        command,
        asked_blocks_option(
            alloc,
            "How many blocks the new image has, as many as OLD to 3840; without it as many as OLD",
        ),
    )
}

fn salvage_command<'a>(alloc: Global) -> Result<Command<'a>, AllocError>
    ensures app { IfOk result (λ c. app_of c ≡ salvage_app) }
    ensures local { IfOk result (λ c. (out-Command c).has_globals ≡ false) }
{
    let command = command_with(
        alloc,
        "salvage",
        "Make an image, in a new file, of what can be had of a damaged one. This is no recovery",
        source_image_argument(alloc),
    );
    let command = with_argument(command, new_argument(alloc, MADE));
    with_argument(
        command,
        asked_blocks_option(
            alloc,
            "How many blocks OLD has: it is refused if it has not so many",
        ),
    )
}

/// The program with the commands that these words may be for: only one, where the second word is its name. Each command
/// that is made costs a start time, and none but that one is asked then.
fn command_for<'a, S: AsStr>(alloc: Global, words: &[S]) -> Result<Command<'a>, AllocError>
    ensures { IfOk result (λ c. ReadsAs (app_of c) forth83 (map S.text words.now)) }
{
    let Some(name) = words.get(1) else {
        return Ok(program(alloc));
    };
    command_named(alloc, name.as_str())
}

/// The program with the command of this name alone, or with all of them where none has it.
fn command_named<'a>(alloc: Global, name: &str) -> Result<Command<'a>, AllocError>
    ensures { IfOk result (λ c. SufficesFor (app_of c) name.now) }
{
    match name {
        "new" => alone(alloc, new_command(alloc)),
        "run" => alone(alloc, run_command(alloc)),
        "list" => alone(alloc, list_command(alloc)),
        "put" => alone(alloc, put_command(alloc)),
        "export" => alone(alloc, export_command(alloc)),
        "import" => alone(alloc, import_command(alloc)),
        "check" => alone(alloc, check_command(alloc)),
        "diff" => alone(alloc, diff_command(alloc)),
        "upgrade" => alone(alloc, upgrade_command(alloc)),
        "copy" => alone(alloc, copy_command(alloc)),
        "salvage" => alone(alloc, salvage_command(alloc)),
        _ => forth83(alloc),
    }
}

/// The program with one command that was made, or couldn't be.
fn alone<'a>(
    alloc: Global,
    made: Result<Command<'a>, AllocError>,
) -> Result<Command<'a>, AllocError>
    ensures { (app : App) → IfOk made.entry (λ c. app_of c ≡ app) → IfOk made.entry (λ c. (out-Command c).has_globals ≡ false)
        → IfOk result (λ c. app_of c ≡ with_subcommand program app.top) }
{
    with_command(Ok(program(alloc)), made)
}

/// Adds a command. Each of the two was made, or couldn't be.
fn with_command<'a>(
    command: Result<Command<'a>, AllocError>,
    made: Result<Command<'a>, AllocError>,
) -> Result<Command<'a>, AllocError>
    ensures app { (before app : App) → IfOk command.entry (λ c. app_of c ≡ before) → IfOk made.entry (λ c. app_of c ≡ app)
        → IfOk made.entry (λ c. (out-Command c).has_globals ≡ false) → IfOk result (λ c. app_of c ≡ with_subcommand before app.top) }
    ensures local { IfOk command.entry (λ c. (out-Command c).has_globals ≡ false) → IfOk made.entry (λ c. (out-Command c).has_globals ≡ false)
        → IfOk result (λ c. (out-Command c).has_globals ≡ false) }
{
    command?.subcommand(made?)
}

/// Adds the commands over the blocks of an image.
fn with_blocks<'a>(
    alloc: Global,
    command: Result<Command<'a>, AllocError>,
) -> Result<Command<'a>, AllocError>
    ensures app { (before : App) → IfOk command.entry (λ c. app_of c ≡ before) → IfOk result (λ c. app_of c ≡ over_blocks before) }
    ensures local { IfOk command.entry (λ c. (out-Command c).has_globals ≡ false) → IfOk result (λ c. (out-Command c).has_globals ≡ false) }
{
    let command = with_command(command, list_command(alloc));
    let command = with_command(command, put_command(alloc));
    let command = with_command(command, export_command(alloc));
    with_command(command, import_command(alloc))
}

/// Adds the commands that look at images.
fn with_lookers<'a>(
    alloc: Global,
    command: Result<Command<'a>, AllocError>,
) -> Result<Command<'a>, AllocError>
    ensures app { (before : App) → IfOk command.entry (λ c. app_of c ≡ before) → IfOk result (λ c. app_of c ≡ looking before) }
    ensures local { IfOk command.entry (λ c. (out-Command c).has_globals ≡ false) → IfOk result (λ c. (out-Command c).has_globals ≡ false) }
{
    let command = with_command(command, check_command(alloc));
    with_command(command, diff_command(alloc))
}

/// Adds the commands that make an image of another one.
fn with_makers<'a>(
    alloc: Global,
    command: Result<Command<'a>, AllocError>,
) -> Result<Command<'a>, AllocError>
    ensures app { (before : App) → IfOk command.entry (λ c. app_of c ≡ before) → IfOk result (λ c. app_of c ≡ making before) }
    ensures local { IfOk command.entry (λ c. (out-Command c).has_globals ≡ false) → IfOk result (λ c. (out-Command c).has_globals ≡ false) }
{
    let command = with_command(command, upgrade_command(alloc));
    let command = with_command(command, copy_command(alloc));
    with_command(command, salvage_command(alloc))
}

fn forth83<'a>(alloc: Global) -> Result<Command<'a>, AllocError>
    ensures app { IfOk result (λ c. app_of c ≡ forth83) }
    ensures local { IfOk result (λ c. (out-Command c).has_globals ≡ false) }
{
    let command = with_command(Ok(program(alloc)), new_command(alloc));
    let command = with_command(command, run_command(alloc));
    let command = with_lookers(alloc, with_blocks(alloc, command));
    with_makers(alloc, command)
}

/// The program without a command.
fn program<'a>(alloc: Global) -> Command<'a>
    ensures app { app_of result ≡ program }
    ensures local { (out-Command result).has_globals ≡ false }
{
    Command::new(alloc, "forth83")
        .about("A Forth-83 system whose blocks a loss of power can't tear")
        .version(VERSION)
        .after_help(
            "Without a command, the lines of standard input are run over 32 blocks in memory, and nothing is kept.",
        )
}

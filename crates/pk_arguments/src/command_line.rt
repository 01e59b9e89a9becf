//! What the command line may say, and the help that it gives.

ghost use Rattle.std.specs.Prelude.{◌≡◌, IfOk};
ghost use Rattle.clap.specs.Words.{app_of, new_app, with_rule};
ghost use Rattle.pk_arguments.specs.Added.{IsWith};
ghost use Rattle.pk_arguments.specs.CommandLine.{IsArg, bare_app, check_app, create_app};
ghost use Rattle.pk_arguments.specs.CommandLine.{grow_app, path_rule, pk_find_app, read_app};
ghost use Rattle.pk_arguments.specs.CommandLine.{run_app, units_rule};
ghost use Rattle.pk_arguments.specs.Described.{IsDescribed};
ghost use Rattle.pk_arguments.specs.declared.command_line.TheConstants.{CHECK_ABOUT, CHECK_HELP};
ghost use Rattle.pk_arguments.specs.declared.command_line.TheConstants.{CREATE_ABOUT, CREATE_HELP};
ghost use Rattle.pk_arguments.specs.declared.command_line.TheConstants.{GROW_ABOUT, GROW_HELP};
ghost use Rattle.pk_arguments.specs.declared.command_line.TheConstants.{READ_ABOUT, READ_HELP};
ghost use Rattle.pk_arguments.specs.declared.command_line.TheConstants.{RUN_ABOUT, RUN_HELP};

use clap::builder::ValueParser;
use clap::{Arg, Command};
use pk_disk::{LEAST_UNITS, MAX_UNITS};
use std::alloc::{AllocError, Global};

/// The version, which stands here alone.
const VERSION: &str = "0.1.0";

const ABOUT: &str = "A Boolean search engine over lines of text";

const CREATE_ABOUT: &str = "Makes a file with an empty store in it";

const CREATE_HELP: &str = "\
The store has N units of 512 bytes, from 64 to 2147483648, and its file gets that length at once.
34 units are the store's own, and the others are for documents. A commit takes the bytes of its
texts, 12 more for each and 24 more, and an index of their words, about half as much again for lines
of English, in whole units side by side. It is refused where that room is not left; `grow` makes
more. A store takes 4096 commits of new documents, and more after a merge, which needs room for all
its documents once again while it works, or after a tidy, which needs less.

The file is sparse: what was never written takes no room on the disk. So choose N generously. The
bytes of all texts to come, divided by 64, give eight times their room. For texts of 4 MiB

  pk_find create notes --units 65536

makes a store of 32 MiB in the file `notes`, which must not be there yet.";

const GROW_ABOUT: &str = "Gives the store in a file more units";

const GROW_HELP: &str = "\
The store has N units of 512 bytes then, and its file is made longer where it has fewer. It prints
`grown to N units`, or `has N units` where the store had as many. One that has more is refused as
`shorter`: no store gets smaller.

No document is written again, so it takes no longer for a large store. A kill, or a machine that
stops, leaves the store with the units that it had or with N, and with all that is committed. Nobody
else can write the store meanwhile.";

const RUN_ABOUT: &str = "Answers commands from standard input, with the store in a file";

const RUN_HELP: &str = "\
Commands, one on each line, each answered by one line:
  add TEXT     adds a document: `added N`, its number
  delete N     deletes document N: `deleted N`
  find QUERY   finds the documents that satisfy the query: `found K:` and the K numbers
  show N       tells the text of document N: `text T`, a line feed as `\\n`, a backslash as `\\\\`
  commit       writes what was added and deleted since the last commit to the file: `committed`
  merge        writes the committed documents that are left anew, together, and frees the old
               places: `merged`
  tidy         does so with eight neighbouring segments, those that have the least bytes together:
               `tidied`
  count        tells how many documents live, and the next number: `count D next N`
  quit         ends the session: `bye`

What was added or deleted since the last commit is undone when the session ends, be it by `quit`,
by the end of the input or by a kill, and when the machine stops. What is committed stays:
`committed` is told once it is on the disk. Neither a merge nor a tidy commits anything.

One program at a time: a store that another program has is told as `in use`, and stays as it is.

A query is words, joined by AND, OR, NOT and brackets: red (apple OR pear) NOT green
Words side by side are joined by AND. Case does not matter in a word; AND, OR and NOT are written
in capitals. Words between quotation marks stand in a row, and a word with a `*` behind it is the
beginning of one: \"red apple\" NOT green, appl* pear, \"red apple\" OR pea*

A line that is not done is answered `refused` and why:
  the line     `line too long`, `not text`, `unknown`
  the query    `query too long`, `query too deep`, `query no word at P`, `query unexpected at P`,
               `query unclosed at P`, where P counts bytes of the query from 0
  the store    `reopen`, `text too long`, `buffer full`, `numbers used up`, `no such document`,
               `too many segments`, `segment too large`, `full need A largest B` (in units),
               `memory`, `damaged`, `disk`
After `refused reopen` end the session and run the program again: what was committed before is
there, and of what was not, all or nothing. Where the system failed to sync the file, that is so
only once the machine was restarted: until then it may show bytes that it could not write.";

const READ_ABOUT: &str = "Answers questions from standard input, beside whoever writes the file";

const READ_HELP: &str = "\
Questions, one on each line, each answered by one line, as `run` answers them:
  find QUERY   finds the documents that satisfy the query: `found K:` and the K numbers
  show N       tells the text of document N: `text T`, a line feed as `\\n`, a backslash as `\\\\`
  count        tells how many documents live, and the next number: `count D next N`
  quit         ends the session: `bye`

Any number of readers may have a store, also while another program writes it. Each answer is that of
one commit, with all that was committed before the question was read; of what is not committed
nothing is seen. Of the file only reading is asked, so it may be one that others alone may write.

`add`, `delete`, `commit`, `merge` and `tidy` are refused as `read only`. A line that is not done is
answered `refused` and why, in the words of `run`; after `memory`, `damaged` and `disk` the line may
be given again.

Beside a program that commits faster than a question is answered, a reader keeps writers away for
that question; who begins `run`, `check` or `grow` just then is told `in use`. Where it cannot, it goes
on beside them for a second, and then answers `refused disk`.";

const CHECK_ABOUT: &str = "Reads all that is committed in the store of a file, and compares it";

const CHECK_HELP: &str = "\
It takes each document out of the file, makes its part of the index again, and compares every byte
of each segment and of each list of deleted documents. It prints one line, as

  ok 2500 documents next 2612 segments 7

which says how many documents are committed and not deleted, the number that the next one gets, and
how many segments there are. `pk_find: damaged` says that some byte is another one than was written.
Nothing is written, and the store stays as it is. It takes about as long as an index of all texts
takes to make, and nobody else can write the store meanwhile.";

const PATH_HELP: &str = "The file of the store";

/// The path, which each command takes.
fn path<'a>(alloc: Global) -> Arg<'a>
    ensures { IsArg path_rule result }
{
    Arg::new(alloc, "PATH").required(true).help(PATH_HELP)
}

/// The number of units, within the range of a store's.
fn units<'a>(alloc: Global) -> Arg<'a>
    ensures { IsArg units_rule result }
{
    Arg::new(alloc, "units")
        .long("units")
        .value_name("N")
        .required(true)
        .value_parser(ValueParser::unsigned(u64::from(LEAST_UNITS), MAX_UNITS))
        .help("The store's size in units of 512 bytes")
}

/// A command that takes the path of a store's file.
fn with_path<'a>(
    alloc: Global,
    name: &'a str,
    about: &'a str,
    help: &'a str,
) -> Result<Command<'a>, AllocError>
    ensures app { IfOk result (λ c. app_of c ≡ with_rule (new_app name.now) path_rule) }
    ensures texts { IfOk result (IsDescribed about.now help.now) }
{
    let command = Command::new(alloc, name).arg(path(alloc))?;
    Ok(command.about(about).after_help(help))
}

/// One that takes a number of units too.
fn with_units<'a>(
    alloc: Global,
    name: &'a str,
    about: &'a str,
    help: &'a str,
) -> Result<Command<'a>, AllocError>
    ensures app { IfOk result (λ c. app_of c
        ≡ with_rule (with_rule (new_app name.now) path_rule) units_rule) }
    ensures texts { IfOk result (IsDescribed about.now help.now) }
{
    let command = Command::new(alloc, name)
        .arg(path(alloc))?
        .arg(units(alloc))?;
    Ok(command.about(about).after_help(help))
}

fn create<'a>(alloc: Global) -> Result<Command<'a>, AllocError>
    ensures app { IfOk result (λ c. app_of c ≡ create_app) }
    ensures texts { IfOk result (IsDescribed CREATE_ABOUT.now CREATE_HELP.now) }
{
    with_units(alloc, "create", CREATE_ABOUT, CREATE_HELP)
}

fn grow<'a>(alloc: Global) -> Result<Command<'a>, AllocError>
    ensures app { IfOk result (λ c. app_of c ≡ grow_app) }
    ensures texts { IfOk result (IsDescribed GROW_ABOUT.now GROW_HELP.now) }
{
    with_units(alloc, "grow", GROW_ABOUT, GROW_HELP)
}

fn run<'a>(alloc: Global) -> Result<Command<'a>, AllocError>
    ensures app { IfOk result (λ c. app_of c ≡ run_app) }
    ensures texts { IfOk result (IsDescribed RUN_ABOUT.now RUN_HELP.now) }
{
    with_path(alloc, "run", RUN_ABOUT, RUN_HELP)
}

fn read<'a>(alloc: Global) -> Result<Command<'a>, AllocError>
    ensures app { IfOk result (λ c. app_of c ≡ read_app) }
    ensures texts { IfOk result (IsDescribed READ_ABOUT.now READ_HELP.now) }
{
    with_path(alloc, "read", READ_ABOUT, READ_HELP)
}

fn check<'a>(alloc: Global) -> Result<Command<'a>, AllocError>
    ensures app { IfOk result (λ c. app_of c ≡ check_app) }
    ensures texts { IfOk result (IsDescribed CHECK_ABOUT.now CHECK_HELP.now) }
{
    with_path(alloc, "check", CHECK_ABOUT, CHECK_HELP)
}

/// The program without its commands.
fn bare<'a>(alloc: Global) -> Command<'a>
    ensures { app_of result ≡ bare_app }
{
    Command::new(alloc, "pk_find")
        .about(ABOUT)
        .version(VERSION)
        .subcommand_required(true)
        .arg_required_else_help(true)
}

/// The program with one more command, where there is memory for both.
fn with<'a>(
    program: Command<'a>,
    command: Result<Command<'a>, AllocError>,
) -> Result<Command<'a>, AllocError>
    ensures { IfOk result (λ c. IsWith (app_of program.entry) command.entry (app_of c)) }
{
    program.subcommand(command?)
}

/// What the command line may say.
pub fn program<'a>(alloc: Global) -> Result<Command<'a>, AllocError>
    ensures { IfOk result (λ c. app_of c ≡ pk_find_app) }
{
    let program = with(bare(alloc), create(alloc))?;
    let program = with(program, grow(alloc))?;
    let program = with(program, run(alloc))?;
    let program = with(program, read(alloc))?;
    with(program, check(alloc))
}

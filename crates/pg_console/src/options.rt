//! The command line.
use clap::{Arg, ArgAction, ArgMatches, Command, Error, value_parser};
use command_line::VERSION;
use dist_types::{Cookie, NodeName, TextFault};
use policy_audit::Opening;
use std::alloc::Global;

/// The most entries of an audit, where none are given.
const ENTRIES: u32 = 1_000_000;

/// The version of link messages that a node knows, where none is given.
const LINKS: u8 = 1;

/// The commands of a script and the statuses, behind the help of the parser.
const SCRIPTS: &str = "\
Commands of a script, one a line; a word with .. may come any number of times:
  node       restart | cookie COOKIE | cookie_for NAME COOKIE | allow NAME..
  scopes     start SCOPE | stop SCOPE
  processes  spawn | exit PROCESS | join SCOPE GROUP PROCESS.. |
             leave SCOPE GROUP PROCESS..
  queries    members SCOPE GROUP | local_members SCOPE GROUP |
             groups SCOPE | local_groups SCOPE
  monitors   monitor SCOPE GROUP | monitor_scope SCOPE | demonitor REF |
             updates REF
  links      dial NAME CHALLENGE | opened CHALLENGE | frame LINK HEX |
             take LINK | lost LINK | disconnect NAME
  console    seat SEAT | size | audit ENTRY

Example:
  printf 'start pg\\nspawn\\njoin pg g b@h/1/1\\nmembers pg g\\n' | pg_console run b@h password

Status: 0 at the end of the script; 1 at a line that is no command, at a fault
of a stream, or for want of memory; 2 at a fault of the command line.
docs/FORMATS.md has the answers and the frames.";

/// The lines of a script of world steps, behind the help of the parser.
const WORLDS: &str = "\
Lines of a script; the nodes come first, and a word in brackets may be left
out:
  nodes  node NAME COOKIE [hidden] [creation N] [entries N] [links N]
         at NAME COMMAND.. | restart NAME | seat SEAT | show SCOPE GROUP
  wires  dial FROM TO CHALLENGE | accept WIRE CHALLENGE | hand WIRE SIDE |
         deliver WIRE SIDE | cut WIRE SIDE | settle
COMMAND is one of `run`, and SIDE is dialler or acceptor.

Example:
  printf 'node a@h x\\nnode b@h x\\ndial a@h b@h 1\\naccept 0 2\\nsettle\\n' | pg_console world

Status: 0 at the end of the script; 1 at a line that can't be read, at a fault
of a stream, or for want of memory outside a step; 2 where two nodes have one
name. docs/FORMATS.md has the lines and their answers.";

/// What an archive is and needs, behind the help of the parser.
const ARCHIVES: &str = "\
An archive has no cookies, so they are given: that of the node itself, and for
each peer that was given one of its own. Where one name is given several, they
are taken in turn, anew with each life or, with --through-lives, through all of
them, and the last from then on.

Example:
  printf 'start pg\\nspawn\\n' | pg_console run --archive entries b@h password
  pg_console replay --cookie b@h=password entries

Status: 0 where all agree; 1 at the first line that doesn't, that can't be read,
or for want of memory; 2 at a fault of the command line. docs/FORMATS.md has the
lines.";

/// Why NAME or COOKIE is refused.
#[derive(Clone, Copy, Debug, thiserror::Error)]
pub enum OptionsFault {
    #[error("NAME: {0}")]
    Name(TextFault),
    #[error("COOKIE: {0}")]
    Cookie(TextFault),
}

impl OptionsFault {
    /// The status of the program: 1 for want of memory, else 2.
    pub fn status(self) -> u8 {
        match self {
            OptionsFault::Name(TextFault::OutOfMemory)
            | OptionsFault::Cookie(TextFault::OutOfMemory) => 1,
            OptionsFault::Name(_) | OptionsFault::Cookie(_) => 2,
        }
    }
}

/// The commands of the program, and the arguments of each.
pub fn command<'a>(alloc: Global) -> Result<Command<'a>, Error> {
    let run = run_command(alloc)?;
    let replay = replay_command(alloc)?;
    let commands = vec![in alloc; run, replay, pair_command(alloc), world_command(alloc)]?;
    Ok(
        Command::new(alloc, "pg_console")
            .version(VERSION)
            .about("Plays scripts on a node of process groups")
            .after_help(SCRIPTS)
            .subcommand_required(true)
            .subcommands(commands)?,
    )
}

fn world_command<'a>(alloc: Global) -> Command<'a> {
    Command::new(alloc, "world")
        .about("Plays a script from standard input on several nodes and their wires")
        .after_help(WORLDS)
}

fn pair_command<'a>(alloc: Global) -> Command<'a> {
    Command::new(alloc, "pair").about(
        "Links two nodes over 127.0.0.1, and prints whom each of them lists",
    )
}

fn run_command<'a>(alloc: Global) -> Result<Command<'a>, Error> {
    let file = "A file for a line of JSON for each entry, which is written anew";
    let args = vec![in alloc;
        word(alloc, "NAME", "The node's own name, as b@h"),
        word(
            alloc,
            "COOKIE",
            "The secret that the node shares with its peers"
        ),
        creation(alloc),
        entries(alloc),
        links(alloc),
        hidden(alloc),
        keep(alloc),
        option(alloc, "archive", "FILE", file),
    ]?;
    Ok(
        Command::new(alloc, "run")
            .about("Plays a script from standard input on one node")
            .after_help(SCRIPTS)
            .args(args)?,
    )
}

fn replay_command<'a>(alloc: Global) -> Result<Command<'a>, Error> {
    let shown = "The secret of the node of this name, or for this peer";
    let args = vec![in alloc;
        archives(alloc),
        options(alloc, "cookie", "NAME=TEXT", shown),
        options(alloc, "cookie-for", "NAME=FILE", "The same, in a file"),
        through_lives(alloc),
    ]?;
    Ok(
        Command::new(alloc, "replay")
            .about("Plays archives again, and compares each verdict and change with the policy's")
            .after_help(ARCHIVES)
            .args(args)?,
    )
}

/// A word that has to be there.
fn word<'a>(alloc: Global, name: &'a str, help: &'a str) -> Arg<'a> {
    Arg::new(alloc, name).help(help).required(true)
}

fn archives<'a>(alloc: Global) -> Arg<'a> {
    word(
        alloc,
        "ARCHIVE",
        "The files, in the order in which they were written",
    )
    .num_args(1..)
    .action(ArgAction::Append)
}

fn option<'a>(alloc: Global, name: &'a str, value: &'a str, help: &'a str) -> Arg<'a> {
    Arg::new(alloc, name)
        .long(name)
        .value_name(value)
        .help(help)
}

/// An option that may be given several times.
fn options<'a>(alloc: Global, name: &'a str, value: &'a str, help: &'a str) -> Arg<'a> {
    option(alloc, name, value, help).action(ArgAction::Append)
}

fn keep<'a>(alloc: Global) -> Arg<'a> {
    let help = "How many entries are kept at least; older ones are forgotten, 256 at a time";
    option(alloc, "keep", "N", help).value_parser(value_parser!(u32))
}

fn creation<'a>(alloc: Global) -> Arg<'a> {
    option(alloc, "creation", "N", "The node's creation")
        .value_parser(value_parser!(u32))
        .default_value("1")
}

fn entries<'a>(alloc: Global) -> Arg<'a> {
    let help = "The most entries of the node's audit, at least 1";
    option(alloc, "entries", "N", help)
        .value_parser(value_parser!(u32).range(1..))
        .default_value("1000000")
}

fn links<'a>(alloc: Global) -> Arg<'a> {
    let help = "The highest version of link messages that the node knows, 1 or 2";
    option(alloc, "links", "N", help)
        .value_parser(value_parser!(u8).range(1..3))
        .default_value("1")
}

fn hidden<'a>(alloc: Global) -> Arg<'a> {
    Arg::new(alloc, "hidden")
        .long("hidden")
        .help("Makes each link a hidden one")
        .action(ArgAction::SetTrue)
}

fn through_lives<'a>(alloc: Global) -> Arg<'a> {
    Arg::new(alloc, "through-lives")
        .long("through-lives")
        .help("Takes the secrets of a name in turn through all lives, and not anew with each")
        .action(ArgAction::SetTrue)
}

/// What `run` opens its node with.
pub fn opening(alloc: Global, run: &ArgMatches<'_>) -> Result<Opening, OptionsFault> {
    let name = run.get_str("NAME").unwrap_or("");
    let cookie = run.get_str("COOKIE").unwrap_or("");
    Ok(Opening {
        name: NodeName::parse(alloc, name.as_bytes()).map_err(OptionsFault::Name)?,
        cookie: Cookie::parse(alloc, cookie.as_bytes()).map_err(OptionsFault::Cookie)?,
        hidden: run.get_flag("hidden"),
        creation: run.get_one::<u32>("creation").unwrap_or(1),
        entries: run.get_one::<u32>("entries").unwrap_or(ENTRIES),
        links: run.get_one::<u8>("links").unwrap_or(LINKS),
    })
}

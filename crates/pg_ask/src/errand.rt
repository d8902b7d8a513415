//! What the command line asks for.
use crate::fault::Fault;
use anyhow::anyhow;
use clap::{Arg, ArgAction, ArgMatches, Command, Error as ClapError, value_parser};
use command_line::VERSION;
use std::alloc::Global;
use std::time::Duration;

/// What stands behind the help of the parser.
const COMMANDS: &str = "\
COMMAND is a line that the node takes, as `nodes` or `members SCOPE GROUP` (docs/FORMATS.md), or
  -                  the line on standard input, which no other user can see
  hold SCOPE GROUP   a process in the group until standard input ends; starts the scope, if need be

Example:
  pg_ask node.sock groups jobs

Status: 0 where it is done; 1 where a rule refuses it; 2 at a fault; 3 where no node answers.";

/// The milliseconds to wait for an answer, where none are given; and the same as a word.
const PATIENCE: u32 = 10_000;

const PATIENCE_WORD: &str = "10000";

/// What the program is to do.
pub struct Errand {
    /// The path of the control socket.
    pub control: String,
    pub deed: Deed,
    /// How long to wait for an answer.
    pub patience: Duration,
    pub show: Show,
}

impl Drop for Errand {
    fn drop(self) {
        let Errand {
            control: _,
            deed: _,
            patience: _,
            show: _,
        } = self;
    }
}

/// What the node is asked for.
#[derive(Drop)]
pub enum Deed {
    /// A line, with its line feed.
    Ask(String),
    /// The line on standard input.
    AskInput,
    /// A process in a group of a scope.
    Hold { scope: String, group: String },
}

/// How lines are shown.
#[derive(Clone, Copy, Drop)]
pub struct Show {
    /// With those that come unasked.
    pub follows: bool,
    pub is_json: bool,
}

/// The arguments of the program.
pub fn command<'a>(alloc: Global) -> Result<Command<'a>, ClapError> {
    let follow = "Prints what comes unasked, too, until the node is gone";
    let json = "Prints each line as a JSON object";
    let args = [
        control(alloc),
        words(alloc),
        flag(alloc, "follow", follow),
        flag(alloc, "json", json),
        timeout(alloc),
    ];
    let args = Vec::from_array(alloc, args)?;
    let command = Command::new(alloc, "pg_ask")
        .version(VERSION)
        .about("Asks a node of process groups, and prints what it answers")
        .after_help(COMMANDS);
    Ok(command.args(args)?)
}

fn control<'a>(alloc: Global) -> Arg<'a> {
    Arg::new(alloc, "CONTROL")
        .help("The control socket of the node")
        .required(true)
}

fn words<'a>(alloc: Global) -> Arg<'a> {
    Arg::new(alloc, "COMMAND")
        .help("What the node is asked")
        .required(true)
        .action(ArgAction::Append)
        .num_args(1..)
}

fn flag<'a>(alloc: Global, name: &'a str, help: &'a str) -> Arg<'a> {
    Arg::new(alloc, name)
        .long(name)
        .help(help)
        .action(ArgAction::SetTrue)
}

fn timeout<'a>(alloc: Global) -> Arg<'a> {
    Arg::new(alloc, "timeout")
        .long("timeout")
        .value_name("MS")
        .help("How long to wait for an answer")
        .value_parser(value_parser!(u32).range(1..))
        .default_value(PATIENCE_WORD)
}

/// What the program is to do.
pub fn read_errand(alloc: Global, matches: &ArgMatches<'_>) -> Result<Errand, Fault> {
    let words = matches.get_strs("COMMAND").unwrap_or(&[]);
    let patience = matches.get_one::<u32>("timeout").unwrap_or(PATIENCE);
    Ok(Errand {
        control: String::from_str(alloc, matches.get_str("CONTROL").unwrap_or(""))?,
        deed: read_deed(alloc, words)?,
        patience: Duration::from_millis(u64::from(patience)),
        show: Show {
            follows: matches.get_flag("follow"),
            is_json: matches.get_flag("json"),
        },
    })
}

fn read_deed(alloc: Global, words: &[&str]) -> Result<Deed, Fault> {
    if let ["-"] = words {
        return Ok(Deed::AskInput);
    }
    let first = words.first().copied().unwrap_or("");
    if first.starts_with("hold ") {
        return Err(Fault::of(anyhow!("COMMAND: hold, SCOPE and GROUP are words of their own")));
    }
    if first != "hold" {
        return Ok(Deed::Ask(line_of(alloc, words)?));
    }
    match words {
        [_, scope, group] if is_word(scope) && is_word(group) => Ok(Deed::Hold {
            scope: String::from_str(alloc, scope)?,
            group: String::from_str(alloc, group)?,
        }),
        _ => Err(Fault::of(anyhow!("COMMAND: no SCOPE GROUP behind hold"))),
    }
}

/// Whether a word is one of a line.
fn is_word(word: &str) -> bool {
    !word.is_empty() && !word.bytes().any(|byte| byte <= b' ')
}

/// The words as one line, which has an answer.
pub fn line_of(alloc: Global, words: &[&str]) -> Result<String, Fault> {
    let mut line = String::new(alloc);
    for word in words {
        if !line.is_empty() {
            line.push(' ')?;
        }
        line.push_str(word)?;
    }
    if line.is_empty() || line.starts_with('#') || line.contains('\n') {
        return Err(Fault::of(anyhow!("COMMAND: it isn't one line that a node answers")));
    }
    line.push('\n')?;
    Ok(line)
}

//! The arguments of the program, for the parser.
use crate::rows::{Otherwise, ROWS, Row, Takes};
use clap::{Arg, ArgAction, Command, Error as ClapError};
use command_line::VERSION;
use std::alloc::Global;

/// What stands behind the help of the parser.
const COMMANDS: &str = "\
Commands, one a line, on standard input and on each control connection;
a word with .. may come any number of times:
  node       cookie COOKIE | cookie_for NAME COOKIE | allow NAME.. |
             disconnect NAME | dial NAME=HOST:PORT | undial NAME | reopen | nodes
  scopes     start SCOPE | stop SCOPE
  processes  spawn | exit PROCESS | join SCOPE GROUP PROCESS.. |
             leave SCOPE GROUP PROCESS..
  queries    members SCOPE GROUP | local_members SCOPE GROUP |
             groups SCOPE | local_groups SCOPE
  monitors   monitor SCOPE GROUP | monitor_scope SCOPE | demonitor REF
  reports    self | status | links | dials | scopes | allowed | clients |
             refusals
  others     size | audit ENTRY | help | quit | drain

Example:
  pg_node b@h --cookie-file cookie --listen 127.0.0.1:4001 --control node.sock

Status: 0 at the end of standard input, at quit or at drain; 1 at a fault of a
file, a socket or standard output, or for want of memory; 2 at a fault of the
command line. docs/FORMATS.md has the answers.";

/// The arguments of the program.
pub fn command<'a>(alloc: Global) -> Result<Command<'a>, ClapError> {
    let name = Arg::new(alloc, "NAME")
        .help("The node's own name, as b@h")
        .required(true);
    let mut command = Command::new(alloc, "pg_node")
        .version(VERSION)
        .about("A node of process groups, linked with others over TCP")
        .after_help(COMMANDS)
        .arg(name)?;
    for row in &ROWS {
        command = command.arg(argument(alloc, row))?;
    }
    Ok(command)
}

fn argument<'a>(alloc: Global, row: &Row) -> Arg<'a> {
    let arg = Arg::new(alloc, row.name)
        .long(row.name)
        .help(row.help)
        .hide(row.help.is_empty());
    let arg = match row.takes {
        Takes::Text(value) => arg.value_name(value),
        Takes::Texts(value) => arg.value_name(value).action(ArgAction::Append),
        Takes::Number(value, parser) => arg.value_name(value).value_parser(parser),
        Takes::Switch => arg.action(ArgAction::SetTrue),
    };
    match row.otherwise {
        Otherwise::Nothing => arg,
        Otherwise::Usual(word) => arg.default_value(word),
        Otherwise::Bare(word) => arg
            .num_args(0..=1)
            .require_equals(true)
            .default_missing_value(word),
    }
}

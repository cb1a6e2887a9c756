//! Words of the command line.

use clap::{Arg, ArgMatches, Command};
use std::alloc::{AllocError, Global};

/// What a running server is asked for.
static ORDERS: [&str; 4] = ["status", "reload", "transfers", "stop"];

/// The word that names the configuration.
fn config_word<'a>(alloc: Global) -> Arg<'a> {
    Arg::new(alloc, "CONFIG")
        .required(true)
        .help("The configuration, in TOML")
}

/// The program's words: a configuration, alone or after `check`, or after `ctl` with an order.
pub(crate) fn command<'a>(alloc: Global) -> Result<Command<'a>, AllocError> {
    let check = Command::new(alloc, "check")
        .about(
            "Reads the configuration and its zones, and says what would be served, or the first fault",
        )
        .arg(config_word(alloc))?;
    let order = Arg::new(alloc, "ORDER")
        .required(true)
        .value_parser(ORDERS.as_slice())
        .help("What the running server does");
    let ctl = Command::new(alloc, "ctl")
        .about("Speaks to the server that runs by the configuration")
        .arg(config_word(alloc))?
        .arg(order)?;
    let command = Command::new(alloc, "zoned")
        .version("0.1.0")
        .about("A name server that serves zones from files")
        .args_conflicts_with_subcommands(true)
        .subcommand_negates_reqs(true)
        .arg(config_word(alloc))?
        .subcommand(check)?
        .subcommand(ctl)?;
    Ok(command)
}

/// The path of the configuration.
pub(crate) fn config<'a>(matches: &ArgMatches<'a>) -> &'a str {
    matches.get_str("CONFIG").unwrap_or("")
}

/// The order.
pub(crate) fn order<'a>(matches: &ArgMatches<'a>) -> &'a str {
    matches.get_str("ORDER").unwrap_or("")
}

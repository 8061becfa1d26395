//! What is wrong with arguments that `clap` accepts, where they ask for nothing.

use clap::ArgMatches;
use ultra_args::{CommandName, command_named};

/// What is said where the arguments ask for nothing, though each is right by itself.
const INVALID_ARGUMENTS: &str = "invalid arguments";

/// The text of a usage fault of `run`.
const RUN_WANTS: &str = "--only is all, events or end";

/// The text of a usage fault of `para`.
const PARA_WANTS: &str = "the steps come from SCHEDULE or from --seed S, and not from both; \
                          --steps T belongs to --seed; --only is all or end";

/// The text of a usage fault of `sweep`.
const SWEEP_WANTS: &str = "--every E, --from A and --to B belong to --measure";

/// The text of a usage fault of `lib`.
const LIB_WANTS: &str = "the coordination programs are gate B T, queue Z T, rw G T, barrier T \
                         and tickets T, with each number in decimal digits";

/// What the command wants of its arguments besides the table.
pub fn wanted_by(matches: &ArgMatches<'_>) -> &'static str {
    let Some((name, _)) = matches.subcommand() else {
        return INVALID_ARGUMENTS;
    };
    match command_named(name) {
        Some(CommandName::Run) => RUN_WANTS,
        Some(CommandName::Para) => PARA_WANTS,
        Some(CommandName::Sweep) => SWEEP_WANTS,
        Some(CommandName::Lib) => LIB_WANTS,
        _ => INVALID_ARGUMENTS,
    }
}

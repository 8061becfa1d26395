//! The arguments of a command line, and what they ask for.
#![tactic(auto)]

mod usage;

ghost use Rattle.std.specs.Prelude.{◌≡◌, ◌≢◌, [], codes, map, option_map, IfOk, MatchResult};
ghost use Rattle.clap.specs.{Words.{fault_of, kind_of, HasKind, Text}, declared.error.ErrorKind.TheVariants.OutOfMemory};
ghost use Rattle.ultra_args.specs.{Asked.{asked, asked_of}, Grammar.{ultra_app, IsApp}};
ghost use Rattle.ultra_command_line.specs.Answer.{AreOnly, AreRunOf, IsAnswer, IsAskedBy, IsHelp, IsRunOf, IsTextOfKind, IsVersion};

use clap::error::ErrorKind;
use std::alloc::{AllocError, Global};
use ultra_args::{Invocation, named_command, ultra_command};
use usage::wanted_by;

/// What the arguments of a command line ask for.
#[derive(Drop)]
pub enum Parsed<'w> {
    /// A command.
    Invocation(Invocation<'w>),
    /// Help: a text for standard output.
    Help(String),
    /// The version: a text for standard output.
    Version(String),
    /// No command, since the arguments are invalid: a text for standard error.
    Usage(String),
    /// It isn't known, since memory was refused.
    NoMemory,
}

/// What the arguments ask for. The first one is the program's name.
///
/// The contract says which words are which command, which ask for help or the version, and which
/// are wrong. So `run CONF PROG`, where neither path begins with a hyphen, is the run of these
/// paths by one worker. `clap` lays out the texts, and tests show them.
pub fn parse<'w>(alloc: Global, words: &'w [&'w str]) -> Parsed<'w>
    ensures asked { IsAskedBy (map (λ w. w.now) words.entry.now) result }
    ensures run { (conf prog : Text) → AreRunOf (map (λ w. w.now) words.entry.now) conf prog
        → IsRunOf conf prog result }
    ensures help { AreOnly (map (λ w. w.now) words.entry.now) (codes "--help") → IsHelp result }
    ensures version { AreOnly (map (λ w. w.now) words.entry.now) (codes "--version")
        → IsVersion result }
{
    match command_in(alloc, words) {
        Ok(command) => Parsed::Invocation(command),
        Err(error) => match error_text(alloc, &error) {
            Ok(text) => text_of_kind(error.kind(), text),
            Err(_) => Parsed::NoMemory,
        },
    }
}

/// What arguments ask for that give no command but a text of this kind.
fn text_of_kind<'w>(kind: ErrorKind, text: String) -> Parsed<'w>
    ensures { IsTextOfKind kind result }
{
    match kind {
        ErrorKind::DisplayHelp => Parsed::Help(text),
        ErrorKind::DisplayVersion => Parsed::Version(text),
        _ => Parsed::Usage(text),
    }
}

/// The error's text for the user, unless memory was refused.
fn error_text(alloc: Global, error: &clap::Error) -> Result<String, AllocError>
    ensures { IfOk result (λ t. kind_of error.now ≢ OutOfMemory) }
{
    if error.kind() == ErrorKind::OutOfMemory {
        return Err(AllocError);
    }
    format!(in alloc; "{error}")
}

/// The command of the arguments.
fn command_in<'w>(alloc: Global, words: &'w [&'w str]) -> Result<Invocation<'w>, clap::Error>
    ensures { IsAnswer (map (λ w. w.now) words.entry.now) result }
{
    let mut ultra = ultra_command(alloc)?;
    read_words(&mut ultra, words)
}

/// The command that the arguments name, as `clap` reads them by `ultra`.
fn read_words<'w>(
    ultra: &mut clap::Command<'w>,
    words: &'w [&'w str],
) -> Result<Invocation<'w>, clap::Error>
    ensures { IsApp ultra_app ultra.old → IsAnswer (map (λ w. w.now) words.entry.now) result }
{
    let (command, wanted) = matched_command(ultra, words)?;
    match command {
        Some(command) => Ok(command),
        None => Err(ultra.error(ErrorKind::ValueValidation, wanted)?),
    }
}

/// The command that the arguments name, if `clap` accepts them, and what the command wants.
fn matched_command<'w>(
    ultra: &mut clap::Command<'w>,
    words: &'w [&'w str],
) -> Result<(Option<Invocation<'w>>, &'static str), clap::Error>
    ensures { IsApp ultra_app ultra.old → MatchResult result
        (λ found. (fault_of ultra_app (map (λ w. w.now) words.entry.now) ≡ [])
        × (option_map asked_of found.0 ≡ asked (map (λ w. w.now) words.entry.now)))
        (HasKind (fault_of ultra_app (map (λ w. w.now) words.entry.now))) }
{
    match ultra.try_get_matches_from_mut(words) {
        Ok(matches) => Ok((named_command(&matches), wanted_by(&matches))),
        Err(error) => Err(error),
    }
}

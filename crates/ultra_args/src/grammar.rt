//! The table of commands, as `clap` knows it.

ghost use Rattle.std.specs.Prelude.{◌≡◌, IfOk};
ghost use Rattle.clap.specs.{Words.{new_app, new_rule, AddsSubcommand, Text}, declared.builder.Command.Command};
ghost use Rattle.ultra_args.specs.Asked.{command_among, command_named};
ghost use Rattle.ultra_args.specs.Grammar.{app_in, kind_rule, program_app, program_in, rule_in, ultra_app, IsRead, IsApp};

use crate::help::{self, Help};
use crate::table::{ArgumentKind, COMMANDS, Presence, TableArgument, TableRow};
use clap::builder::ValueParser;
use clap::{Arg, ArgAction, Command};
use std::alloc::{AllocError, Global};

/// The rows of the table. The code of a table is proved in each function that names it, so both
/// its readers have it from here.
pub fn commands() -> &'static [TableRow]
    ensures app { program_in (λ t. t.now) (λ r. r.now) result.now ≡ ultra_app }
    ensures names { (name : Text) →
        command_among (λ t. t.now) result.now name ≡ command_named name }
{
    &COMMANDS
}

/// The command line of the program.
pub fn ultra_command<'c>(alloc: Global) -> Result<Command<'c>, AllocError>
    ensures { IfOk result (IsApp ultra_app) }
{
    program_with(alloc, commands())
}

/// The command line of the program with these commands.
fn program_with<'c>(alloc: Global, commands: &[TableRow]) -> Result<Command<'c>, AllocError>
    ensures { IfOk result (IsApp (program_in (λ t. t.now) (λ r. r.now) commands.now)) }
{
    let mut program = new_program(alloc);
    for command in commands {
        program = with_command(alloc, program, command)?;
    }
    Ok(program)
}

/// The program with the command of one more row.
fn with_command<'c>(
    alloc: Global,
    program: Command<'c>,
    row: &TableRow,
) -> Result<Command<'c>, AllocError>
    ensures { IfOk result (λ new. (c : Command) × IsApp (app_in (λ t. t.now) (λ r. r.now) row.now) c
        × AddsSubcommand program.entry c new) }
{
    let command = command_of(alloc, row)?;
    program.subcommand(command)
}

/// The program without its commands.
fn new_program<'c>(alloc: Global) -> Command<'c>
    ensures { IsApp program_app result }
{
    new_command(alloc, "ultra", help::ULTRA)
        .version(help::VERSION)
        .subcommand_required(true)
}

/// The command of a row.
fn command_of<'c>(alloc: Global, row: &TableRow) -> Result<Command<'c>, AllocError>
    ensures { IfOk result (IsApp (app_in (λ t. t.now) (λ r. r.now) row.now)) }
{
    let mut command = new_command(alloc, row.name, help::of_command(row.command));
    for argument in row.arguments {
        command = command.arg(argument_of(alloc, argument))?;
    }
    Ok(command)
}

/// A command of this name without arguments, and its help.
fn new_command<'c>(alloc: Global, name: &'c str, help: Help<'c>) -> Command<'c>
    ensures { IsApp (new_app name.entry.now) result }
{
    Command::new(alloc, name)
        .about(help.about)
        .long_about(help.detail)
        .after_long_help(help.more)
}

/// The argument as `clap` knows it.
fn argument_of<'c>(alloc: Global, argument: &TableArgument) -> Arg<'c>
    ensures { IsRead (rule_in (λ t. t.now) argument.now) result }
{
    let given = of_kind(alloc, argument);
    match argument.presence {
        Presence::Required => given.required(true),
        Presence::Optional => given,
        Presence::Default(text) => given.default_value(text),
    }
}

/// An argument of this name and kind, and its help.
fn of_kind<'c>(alloc: Global, argument: &TableArgument) -> Arg<'c>
    ensures { IsRead (kind_rule (λ t. t.now) argument.now.name.now argument.now.kind) result }
{
    let name = argument.name;
    let named = argument_with_help(alloc, name, help::of_argument(argument.help));
    match argument.kind {
        ArgumentKind::Text => named,
        ArgumentKind::Numbers => named
            .value_parser(ValueParser::unsigned(0, 4_294_967_295))
            .action(ArgAction::Append),
        ArgumentKind::Number(number, least, most) => named
            .long(name)
            .value_name(number)
            .value_parser(ValueParser::unsigned(least, most)),
        ArgumentKind::Word(word) => named.long(name).value_name(word),
        ArgumentKind::Flag => named.long(name).action(ArgAction::SetTrue),
    }
}

/// An argument of this name, and its help.
fn argument_with_help<'c>(alloc: Global, name: &'c str, help: &'c str) -> Arg<'c>
    ensures { IsRead (new_rule name.entry.now) result }
{
    let argument = Arg::new(alloc, name);
    match help.split_once("\n\n") {
        Some((first, _)) => argument.help(first).long_help(help),
        None => argument.help(help),
    }
}

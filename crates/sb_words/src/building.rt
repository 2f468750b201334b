ghost use Rattle.std.specs.Prelude.{◌≡◌, ◌++◌, ◌∷◌, [], IfOk, map, Some, false};
ghost use Rattle.clap.specs.Words.{app_of, rule_of, with_rule};
ghost use Rattle.sb_words.specs.ClapCommand.{app_for, positional_rule, with_rules};
ghost use Rattle.sb_words.specs.Views.{rule_for, shape_of};

use crate::{OptionKind, OptionShape, Shape};
use clap::builder::ValueParser;
use clap::{Arg, ArgAction, Command};
use std::alloc::{AllocError, Global};

/// The id of the positional words, which no option has for its name.
pub(crate) const POSITIONALS: &str = "--";

/// An argument with one value that is not empty, at most once.
fn with_value<'a>(arg: Arg<'a>) -> Arg<'a>
    ensures rule { rule_of result ≡ record (rule_of arg.entry) { action = Some ArgAction.Set; parser = Some ValueParser.NonEmptyString } }
    ensures local { result.global ≡ arg.entry.global }
{
    arg.action(ArgAction::Set)
        .value_parser(ValueParser::NonEmptyString)
}

/// An option, as `clap` takes it.
#[tactic(auto, unfolding(crate::specs::Views::rule_for))]
fn option_arg<'a>(alloc: Global, option: &OptionShape) -> Arg<'a>
    ensures rule { rule_of result ≡ rule_for option.now }
    ensures local { result.global ≡ false }
{
    let arg = Arg::new(alloc, option.name).long(option.name);
    match option.kind {
        OptionKind::Needed => with_value(arg.required(true)),
        OptionKind::Optional => with_value(arg),
        OptionKind::Flag => arg.action(ArgAction::SetTrue),
    }
}

/// The positional words, as `clap` takes them.
fn positional_arg<'a>(alloc: Global) -> Arg<'a>
    ensures rule { rule_of result ≡ positional_rule }
    ensures local { result.global ≡ false }
{
    Arg::new(alloc, POSITIONALS).action(ArgAction::Append)
}

/// The command with an option more.
fn with_option<'a>(
    alloc: Global,
    command: Command<'a>,
    option: &OptionShape,
) -> Result<Command<'a>, AllocError>
    ensures { IfOk result (λ r. app_of r ≡ with_rule (app_of command.entry) (rule_for option.now)) }
{
    command.arg(option_arg(alloc, option))
}

/// A command with no argument yet.
fn empty_command<'a>(alloc: Global) -> Command<'a>
    ensures { app_of result ≡ with_rules [] }
{
    Command::new(alloc, "words")
        .no_binary_name(true)
        .disable_help_flag(true)
}

/// The command that has the options.
fn with_options<'a>(alloc: Global, shape: &Shape) -> Result<Command<'a>, AllocError>
    ensures { IfOk result (λ r. app_of r ≡ with_rules (map rule_for shape.now.options.now)) }
{
    let mut command = empty_command(alloc);
    for option in shape.options {
        command = with_option(alloc, command, option)?;
    }
    Ok(command)
}

/// The command of a shape, as `clap` takes it.
pub(crate) fn command_of<'a>(alloc: Global, shape: &Shape) -> Result<Command<'a>, AllocError>
    ensures { IfOk result (λ r. app_of r ≡ app_for (shape_of shape.now)) }
{
    let command = with_options(alloc, shape)?;
    if !shape.takes_positionals {
        return Ok(command);
    }
    command.arg(positional_arg(alloc))
}

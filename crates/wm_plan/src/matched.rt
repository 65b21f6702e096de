// What `clap` makes of options that stand in one word each.
ghost use Rattle.std.specs.Prelude.{◌≡◌, Err, IfOk, List, ℕ, [], false, true, map, string_bytes};
ghost use Rattle.std.specs.List.{list_all};
ghost use Rattle.clap.specs.Matches.{first_value, found_of};
ghost use Rattle.clap.specs.Simple.{app_of, with_rule};
ghost use Rattle.wm_plan.specs.Options.{are_given, is_whole, value_of};
ghost use Rattle.wm_plan.specs.Told.{command_app, option_rule};

use crate::WordFault;
use clap::error::ErrorKind;
use clap::{Arg, ArgMatches, Command};
use std::alloc::Global;
use wm_base::NoMemory;

// A command with one option more.
fn with_option<'a>(
    alloc: Global,
    command: Command<'a>,
    name: &'a str,
) -> Result<Command<'a>, NoMemory>
    ensures { IfOk result (λ more. app_of more ≡ with_rule (app_of command.entry) (option_rule name.entry.now)) }
{
    let option = Arg::new(alloc, name).long(name);
    Ok(command.arg(option)?)
}

// A command without options.
fn bare_command<'a>(alloc: Global) -> Command<'a>
    ensures { app_of result ≡ command_app [] }
{
    Command::new(alloc, "wrkmgr")
        .no_binary_name(true)
        .disable_help_flag(true)
}

// The command with these options.
fn command<'a>(alloc: Global, names: &[&'a str]) -> Result<Command<'a>, NoMemory>
    ensures { IfOk result (λ command. app_of command ≡ command_app (map (λ name. name.now) names.now)) }
{
    let mut command = bare_command(alloc);
    for name in names {
        command = with_option(alloc, command, *name)?;
    }
    Ok(command)
}

/// What options are for a command with these names: each has one of them, and none stands twice, or they are `Bad`.
pub fn matched<'a>(
    alloc: Global,
    names: &[&'a str],
    options: &'a [String],
) -> Result<ArgMatches<'a>, WordFault>
    requires whole { list_all is_whole (map string_bytes options.now) ≡ true }
    ensures given { IfOk result (λ _. are_given (map (λ name. name.now) names.now) [] (map string_bytes options.now) ≡ true) }
    ensures values { IfOk result (λ matches. (name : List ℕ) → first_value (found_of matches) name ≡ value_of name (map string_bytes options.now)) }
    ensures bad { result ≡ Err WordFault.Bad → are_given (map (λ name. name.now) names.now) [] (map string_bytes options.now) ≡ false }
{
    let command = command(alloc, names)?;
    match command.try_get_matches_from(options) {
        Ok(matches) => Ok(matches),
        Err(error) => match error.kind() {
            ErrorKind::OutOfMemory => Err(WordFault::NoMemory),
            _ => Err(WordFault::Bad),
        },
    }
}

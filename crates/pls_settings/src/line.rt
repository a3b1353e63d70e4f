//! The words of a command line, read by a parser.

ghost use Rattle.std.specs.Prelude.{◌≡◌, Some, None, map, IfOk, IfErr};
ghost use Rattle.clap.specs.Words.{app_of, with_rule};
ghost use Rattle.pls_settings.specs.Line.{line};
ghost use Rattle.pls_settings.specs.Parse.{plsnd, bare, mode_rule, with_option};

use crate::arg_words::ArgWords;
use crate::choices::{Settings, SettingsRefusal};
use crate::values::settings_of;
use clap::{Arg, Command};
use std::alloc::{AllocError, Global};

/// The settings that the words stand for; Usage where they are no command line.
pub fn settings(alloc: Global, words: &ArgWords) -> Result<Settings, SettingsRefusal>
    ensures ok { IfOk result (λ s. line words.now ≡ Some s) }
    ensures usage { IfErr result (λ e. e ≡ SettingsRefusal.Usage → line words.now ≡ None) }
{
    let texts = words.texts(alloc)?;
    parse(alloc, texts.as_slice())
}

/// The settings of words, each a text.
fn parse<'a>(alloc: Global, words: &'a [&'a str]) -> Result<Settings, SettingsRefusal>
    ensures ok { IfOk result (λ s. line (map (λ w. w.now) words.now) ≡ Some s) }
    ensures usage { IfErr result (λ e. e ≡ SettingsRefusal.Usage → line (map (λ w. w.now) words.now) ≡ None) }
{
    let matches = command(alloc)?.try_get_matches_from(words)?;
    settings_of(&matches).ok_or(SettingsRefusal::Usage)
}

/// The command: a mode, and nine options with one value each.
fn command<'a>(alloc: Global) -> Result<Command<'a>, AllocError>
    ensures { IfOk result (λ c. app_of c ≡ plsnd) }
{
    let command = with_mode(alloc)?;
    let command = with_option(alloc, command, "seed")?;
    let command = with_option(alloc, command, "moves")?;
    let command = with_option(alloc, command, "workers")?;
    let command = with_option(alloc, command, "starts")?;
    let command = with_option(alloc, command, "rows")?;
    let command = with_option(alloc, command, "kind")?;
    let command = with_option(alloc, command, "size")?;
    let command = with_option(alloc, command, "objectives")?;
    with_option(alloc, command, "rules")
}

/// The command with the mode alone. The words have no program name, and there is no help.
fn with_mode<'a>(alloc: Global) -> Result<Command<'a>, AllocError>
    ensures { IfOk result (λ c. app_of c ≡ with_rule bare mode_rule) }
{
    let command = Command::new(alloc, "plsnd")
        .no_binary_name(true)
        .disable_help_flag(true);
    command.arg(Arg::new(alloc, "mode").required(true))
}

/// Adds an option with one value.
fn with_option<'a>(
    alloc: Global,
    command: Command<'a>,
    name: &'a str,
) -> Result<Command<'a>, AllocError>
    ensures { IfOk result (λ c. app_of c ≡ with_option (app_of command.entry) name.entry.now) }
{
    command.arg(Arg::new(alloc, name).long(name))
}

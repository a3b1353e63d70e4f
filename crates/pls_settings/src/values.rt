//! What the texts of a command line stand for.

ghost use Rattle.std.specs.Prelude.{◌≡◌, ◌≤◌, IfSome, option_map};
ghost use Rattle.pls_problem.specs.Kinds.{kind_named};
ghost use Rattle.pls_settings.specs.Line.{is_makeable, make_of, mode_of, number, or_default, settings_of};
ghost use Rattle.pls_settings.specs.Parse.{text_in};

use crate::choices::{Mode, Settings};
use clap::ArgMatches;
use pls_problem::{Kind, MakeSpec};

/// The settings that the texts stand for.
#[tactic(auto, unfolding(crate::specs::Line::settings_of, crate::specs::Line::with_read))]
pub(crate) fn settings_of(matches: &ArgMatches<'_>) -> Option<Settings>
    ensures { result ≡ settings_of (text_in matches.now) }
{
    let mode = mode_of(text_in(matches, "mode")?)?;
    let seed = number_or(text_in(matches, "seed"), 1, 0, u64::MAX)?;
    let moves = number_or(text_in(matches, "moves"), 1_000_000, 0, 1_000_000_000)?;
    let workers = number_or(text_in(matches, "workers"), 1, 1, 16)? as u32;
    let starts = number_or(text_in(matches, "starts"), 1, 1, 64)? as u32;
    let rows = number_or(text_in(matches, "rows"), 65_536, 64, 262_144)? as u32;
    let make = make_of(matches, seed)?;
    if !is_makeable(mode, &make) {
        return None;
    }
    Some(Settings {
        mode,
        seed,
        moves,
        workers,
        starts,
        rows,
        make,
    })
}

/// What an instance is made from.
#[tactic(auto, unfolding(crate::specs::Line::make_of, crate::specs::Line::with_read))]
fn make_of(matches: &ArgMatches<'_>, seed: u64) -> Option<MakeSpec>
    ensures { result ≡ make_of seed (text_in matches.now) }
{
    let kind = kind_or(text_in(matches, "kind"), Kind::Knapsack)?;
    let size = number_or(text_in(matches, "size"), 100, 1, 256)? as u16;
    let objectives = number_or(text_in(matches, "objectives"), 2, 2, 4)? as u8;
    let rules = number_or(text_in(matches, "rules"), 1, 1, 8)? as u8;
    Some(MakeSpec {
        kind,
        objectives,
        size,
        rules,
        seed,
    })
}

/// Whether the size is at least the least one of the kind, where the mode makes an instance.
fn is_makeable(mode: Mode, make: &MakeSpec) -> bool
    ensures { result ≡ is_makeable mode make.now }
{
    match mode {
        Mode::Search => true,
        Mode::Make | Mode::Demo => make.kind.least_size() <= make.size,
    }
}

/// The text that is given for a name.
fn text_in<'a>(matches: &ArgMatches<'a>, name: &str) -> Option<&'a str>
    ensures { option_map (λ text. text.now) result ≡ text_in matches.now name.now }
{
    matches.get_str(name)
}

/// The mode that a text names.
fn mode_of(text: &str) -> Option<Mode>
    ensures { result ≡ mode_of text.now }
{
    match text {
        "search" => Some(Mode::Search),
        "make" => Some(Mode::Make),
        "demo" => Some(Mode::Demo),
        _ => None,
    }
}

/// The kind that a text names, or the default.
fn kind_or(text: Option<&str>, default: Kind) -> Option<Kind>
    ensures { result ≡ or_default default kind_named (option_map (λ t. t.now) text.entry) }
{
    match text {
        Some(text) => Kind::named(text.as_bytes()),
        None => Some(default),
    }
}

/// How many digits a number may have.
const MOST_DIGITS: usize = 20;

/// The number from `least` to `most` that a text writes, or the default.
fn number_or(text: Option<&str>, default: u64, least: u64, most: u64) -> Option<u64>
    requires { (least ≤ default) × (default ≤ most) }
    ensures value { result ≡ or_default default (number least most) (option_map (λ t. t.now) text.entry) }
    ensures range { IfSome result (λ n. (least ≤ n) × (n ≤ most)) }
{
    match text {
        Some(text) => number(text, least, most),
        None => Some(default),
    }
}

/// The number from `least` to `most` that a text writes, in at most 20 digits and without a sign.
fn number(text: &str, least: u64, most: u64) -> Option<u64>
    ensures value { result ≡ number least most text.now }
    ensures range { IfSome result (λ n. (least ≤ n) × (n ≤ most)) }
{
    if text.len() > MOST_DIGITS || text.starts_with('+') {
        return None;
    }
    match text.parse::<u64>() {
        Ok(n) if least <= n && n <= most => Some(n),
        _ => None,
    }
}

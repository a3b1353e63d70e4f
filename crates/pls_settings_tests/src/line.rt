//! Lists of words, and the settings that they stand for.

use pls_problem::{Kind, MakeSpec};
use pls_settings::{ArgWords, Mode, Settings, SettingsRefusal, settings};
use std::alloc::{AllocError, Global};
use std::test::Fail;

/// What `search` alone stands for.
const PLAIN: Settings = Settings {
    mode: Mode::Search,
    seed: 1,
    moves: 1_000_000,
    workers: 1,
    starts: 1,
    rows: 65_536,
    make: MakeSpec {
        kind: Kind::Knapsack,
        objectives: 2,
        size: 100,
        rules: 1,
        seed: 1,
    },
};

/// The words of a text, which are separated by spaces.
fn words_of(alloc: Global, text: &str) -> Result<ArgWords, AllocError> {
    let mut words = ArgWords::new(alloc);
    for word in text.split_whitespace() {
        words.push(word)?;
    }
    Ok(words)
}

/// The same with another seed.
fn seeded(settings: Settings, seed: u64) -> Settings {
    Settings {
        seed,
        make: MakeSpec {
            seed,
            ..settings.make
        },
        ..settings
    }
}

#[test]
fn answers_lines(rt: HostRuntime) -> Result<(), Fail> {
    let cases = [
        ("search", PLAIN),
        ("-- search", PLAIN),
        (
            "--seed=7 search --workers 2",
            seeded(
                Settings {
                    workers: 2,
                    ..PLAIN
                },
                7,
            ),
        ),
        (
            "--starts 64 --rows=64 --moves 0 search",
            Settings {
                starts: 64,
                rows: 64,
                moves: 0,
                ..PLAIN
            },
        ),
        (
            "search --moves 1000000000 --rows 262144 --workers=16",
            Settings {
                moves: 1_000_000_000,
                rows: 262_144,
                workers: 16,
                ..PLAIN
            },
        ),
        (
            "search --seed 18446744073709551615",
            seeded(PLAIN, u64::MAX),
        ),
        ("search --seed 00000000000000000007", seeded(PLAIN, 7)),
        (
            "make --kind knapsack --size 256 --objectives 4 --rules 8 --seed 0",
            seeded(
                Settings {
                    mode: Mode::Make,
                    make: MakeSpec {
                        size: 256,
                        objectives: 4,
                        rules: 8,
                        ..PLAIN.make
                    },
                    ..PLAIN
                },
                0,
            ),
        ),
        (
            "make --kind tour --size 3",
            Settings {
                mode: Mode::Make,
                make: MakeSpec {
                    kind: Kind::Tour,
                    size: 3,
                    ..PLAIN.make
                },
                ..PLAIN
            },
        ),
        (
            "search --size 2 --kind tour",
            Settings {
                make: MakeSpec {
                    kind: Kind::Tour,
                    size: 2,
                    ..PLAIN.make
                },
                ..PLAIN
            },
        ),
        (
            "demo --kind=assignment --size 1",
            Settings {
                mode: Mode::Demo,
                make: MakeSpec {
                    kind: Kind::Assignment,
                    size: 1,
                    ..PLAIN.make
                },
                ..PLAIN
            },
        ),
        (
            "--size=1 demo --workers 16",
            Settings {
                mode: Mode::Demo,
                workers: 16,
                make: MakeSpec {
                    size: 1,
                    ..PLAIN.make
                },
                ..PLAIN
            },
        ),
    ];
    for (line, expected) in cases {
        let words = words_of(rt.alloc(), line)?;
        assert_eq!(rt; settings(rt.alloc(), &words), Ok(expected), "at {line}");
    }
    Ok(())
}

#[test]
fn refuses_other_words(rt: HostRuntime) -> Result<(), Fail> {
    let lines = [
        "",
        "serch",
        "search extra",
        "search search",
        "search --seed",
        "search --seed=",
        "search --seed --moves 5",
        "search --moves 1 --moves 2",
        "search --moves 1 --moves 1",
        "search --workers 17",
        "search --workers 0",
        "search --starts 0",
        "search --starts 65",
        "search --rows 63",
        "search --rows 262145",
        "search --moves 1000000001",
        "search --seed 18446744073709551616",
        "search --seed 99999999999999999999",
        "search --seed 000000000000000000007",
        "search --seed +7",
        "search --seed -7",
        "search --seed 7x",
        "search --size 257",
        "search --size 0",
        "search --objectives 1",
        "search --objectives 5",
        "search --rules 0",
        "search --rules 9",
        "search --kind lot",
        "make --kind tours",
        "make --kind tour --size 2",
        "demo --size=1 --kind=tour",
        "search -- --seed=7",
        "--seed=7",
        "--see=7 search",
        "-s 7 search",
        "search --help",
        "-h",
        "check",
    ];
    for line in lines {
        let words = words_of(rt.alloc(), line)?;
        assert_eq!(rt;
            settings(rt.alloc(), &words),
            Err(SettingsRefusal::Usage),
            "at {line}"
        );
    }
    Ok(())
}

#[test]
fn counts_words(rt: HostRuntime) -> Result<(), Fail> {
    let words = words_of(rt.alloc(), "search --seed=7 --workers 2")?;
    assert_eq!(rt; words.len(), 4);
    Ok(())
}

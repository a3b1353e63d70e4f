//! Rows and passes cross threads under every law; and the calls that the smallest use of the rows does not make, at the law
//! that admits each tree of rows and accepts no entry.

ghost use Rattle.std.specs.Prelude.{◌≡◌, ◌<◌, Some, None, []};
ghost use Rattle.era_rows.specs.Passes.{known_of, work_of, IsPassOf};

use era_rows::{Law, Names, Pass, Rows};
use std::alloc::{AllocError, Global};
use std::fs;
use std::test::Fail;

struct AnyTree;

// An entry of caller 0, with its stamp.
#[derive(Drop)]
struct Noted {
    stamp: u64,
}

impl Law for AnyTree {
    ghost use Rattle.std.specs.Prelude.{true, false};
    ghost use Rattle.era_rows.specs.Trees.{IsTree};
    ghost use Rattle.era_rows.specs.FirstTree.{first_is_tree};

    type Entry = u64;

    ghost caller = { λ _. 0 };

    ghost stamp = { λ n. n };

    ghost accepted = { λ _ _. false };

    ghost lawful = { λ _ c. IsTree c };

    ghost stands = { λ _ _ _. Unit {0} };

    ghost right = { λ _ _ _. Unit {0} };

    ghost says = { λ _ _ _. true };

    ghost fits = { λ _ c tree. tree };

    ghost begins = { λ _. (first_is_tree, tt) };

    ghost lasts = { λ _ _ _ _ said. said };
}

impl Names<AnyTree> for Noted {
    ghost use Rattle.std.specs.Prelude.{Some};

    ghost entry = { λ e. Some e.stamp };
}

fn is_shared<T: Sync>(_value: &T) {}

fn is_sent<T: Send>(_value: &T) {}

fn cross<L: Law>(rows: &Rows<L>, pass: &Pass<L>) {
    is_shared(rows);
    is_sent(rows);
    is_sent(pass);
}

#[test]
fn crosses_threads(rt: HostRuntime) -> Result<(), AllocError> {
    let (rows, passes): (Rows<AnyTree>, Vec<Pass<AnyTree>>) = Rows::start(rt.alloc(), 0, 64, 2)?;
    cross(&rows, &passes[1]);
    assert!(&rt; rows.shape() == 0, "the shape is the one that was given");
    Ok(())
}

// Pins a version and leaves it with an entry: the version.
fn note(rows: &Rows<AnyTree>, pass: &mut Pass<AnyTree>) -> u64
    requires { IsPassOf rows.now pass.old × ((known_of pass.old).core.pinned ≡ None) × ((known_of pass.old).core.number ≡ Some 0) }
    ensures { IsPassOf rows.now pass.new × ((known_of pass.new).core.pinned ≡ None) × ((known_of pass.new).core.number ≡ Some 0) }
{
    let (version, _) = rows.pin(pass);
    rows.unpin(pass, &Noted { stamp: version });
    version
}

// Pins a version and takes all rows that are free: what is pinned, and how many rows were taken, 100 at most.
fn take_all(rows: &Rows<AnyTree>, pass: &mut Pass<AnyTree>) -> (Option<(u64, u32)>, u32)
    requires { IsPassOf rows.now pass.old × ((known_of pass.old).core.pinned ≡ None) }
    ensures { IsPassOf rows.now pass.new }
{
    rows.pin(pass);
    for taken in 0..100 {
        if rows.take_or_full(pass).is_none() {
            return (rows.pinned(pass), taken);
        }
    }
    (rows.pinned(pass), 100)
}

#[test]
fn notes_an_entry_and_takes_all_rows(rt: HostRuntime) -> Result<(), AllocError> {
    let (rows, mut passes): (Rows<AnyTree>, Vec<Pass<AnyTree>>) = Rows::start(
        rt.alloc(),
        0,
        64,
        1,
    )?;
    let pass = &mut passes[0];
    assert!(&rt; note(&rows, pass) == 0, "the entry is noted at version 0");
    let (pinned, taken) = take_all(&rows, pass);
    assert!(&rt; pinned == Some((0, 0)), "version 0 is pinned");
    assert!(&rt; taken == 63, "all rows but row 0 are free");
    Ok(())
}

// A word that was put on the work list and set there, and how long the list is once it is cut.
fn use_work(pass: &mut Pass<AnyTree>) -> (u64, usize)
    requires { (work_of pass.old ≡ []) × (0 < (known_of pass.old).rows) }
{
    pass.work_push(5);
    pass.work_set(0, 7);
    let word = pass.work(0);
    pass.work_cut(0);
    (word, pass.work_len())
}

#[test]
fn keeps_a_work_list(rt: HostRuntime) -> Result<(), AllocError> {
    let (_, mut passes): (Rows<AnyTree>, Vec<Pass<AnyTree>>) = Rows::start(rt.alloc(), 0, 64, 1)?;
    assert!(&rt;
        use_work(&mut passes[0]) == (7, 0),
        "the word is the one that was set"
    );
    Ok(())
}

// Gives a row back, if it is a fresh one.
pub(crate) fn give_back_fresh<L: Law>(rows: &Rows<L>, pass: &mut Pass<L>, row: u32)
    requires { IsPassOf rows.now pass.old }
    ensures { IsPassOf rows.now pass.new }
{
    if row < rows.rows() && rows.is_fresh(pass, row) {
        rows.give_back(pass, row);
    }
}

// The rows that a pass takes: two, and two more after it gave these back, the first one first.
fn take_two_again(rows: &Rows<AnyTree>, pass: &mut Pass<AnyTree>) -> Option<[u32; 4]>
    requires { IsPassOf rows.now pass.old }
{
    let first = rows.take(pass)?;
    let second = rows.take(pass)?;
    give_back_fresh(rows, pass, first);
    give_back_fresh(rows, pass, second);
    Some([first, second, rows.take(pass)?, rows.take(pass)?])
}

// What pass k of two takes so among 64 rows.
fn pass_takes(alloc: Global, k: usize) -> Result<Option<[u32; 4]>, AllocError>
    requires { k < 2 }
{
    let (rows, mut passes): (Rows<AnyTree>, Vec<Pass<AnyTree>>) = Rows::start(alloc, 0, 64, 2)?;
    Ok(take_two_again(&rows, &mut passes[k]))
}

#[test]
fn searches_begin_apart_and_with_the_rows_freed_last(rt: HostRuntime) -> Result<(), AllocError> {
    assert!(&rt;
        pass_takes(rt.alloc(), 0)? == Some([1, 2, 2, 1]),
        "row 0 is version 0, so the first pass takes rows 1 and 2, and then the one freed last first"
    );
    assert!(&rt;
        pass_takes(rt.alloc(), 1)? == Some([32, 33, 33, 32]),
        "the second of two passes begins at the middle"
    );
    Ok(())
}

// How many bytes of addresses this process uses, in pages of 4096.
fn mapped(rt: &HostRuntime) -> Result<u64, Fail> {
    let sizes = fs::read_to_string(rt, "/proc/self/statm")?;
    let pages: u64 = sizes.split(' ').next().ok_or("no size")?.parse()?;
    Ok(pages.saturating_mul(4096))
}

const MANY_ROWS: u32 = 65_536;

// What a start takes with 17 passes and not with one is room for the lists of 16 passes. It is rounded to whole bytes a row,
// since whole pages are taken.
#[test]
fn reserves_37_bytes_a_row(rt: HostRuntime) -> Result<(), Fail> {
    let before = mapped(&rt)?;
    let _alone: (Rows<AnyTree>, Vec<Pass<AnyTree>>) = Rows::start(rt.alloc(), 0, MANY_ROWS, 1)?;
    let between = mapped(&rt)?;
    let _many: (Rows<AnyTree>, Vec<Pass<AnyTree>>) = Rows::start(rt.alloc(), 0, MANY_ROWS, 17)?;
    let after = mapped(&rt)?;
    let alone = between.saturating_sub(before);
    let lists = after.saturating_sub(between).saturating_sub(alone);
    let cells = 16 * u64::from(MANY_ROWS);
    assert!(&rt;
        lists.saturating_add(cells / 2) / cells == 37,
        "the lists of a pass have room for 3 words, 3 rows and a flag for each row"
    );
    Ok(())
}

// What a pass remembers at a place: at first, after words were put there, and after they were forgotten.
fn use_memory(pass: &mut Pass<AnyTree>) -> [Option<[u64; 6]>; 3] {
    let first = pass.remembered(15);
    pass.remember(15, [1, 2, 3, 4, 5, 6]);
    let then = pass.remembered(15);
    pass.forget(15);
    [first, then, pass.remembered(15)]
}

#[test]
fn remembers_words(rt: HostRuntime) -> Result<(), AllocError> {
    let (_, mut passes): (Rows<AnyTree>, Vec<Pass<AnyTree>>) = Rows::start(rt.alloc(), 0, 64, 1)?;
    assert!(&rt;
        use_memory(&mut passes[0]) == [None, Some([1, 2, 3, 4, 5, 6]), None],
        "the words are those that were put there"
    );
    Ok(())
}

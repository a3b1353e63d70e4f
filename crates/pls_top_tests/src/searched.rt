//! Searches from given starts: alone, and by workers that meet.
ghost use Rattle.std.specs.Prelude.{◌≡◌, ◌≤◌, ◌^◌, All, true, length, IfSome};
ghost use Rattle.pls_problem.specs.Instance.{feasible};

use crate::meeting::Meeting;
use crate::program::{THREE_ITEMS, TWO_AGENTS, TWO_AGENTS_FOUND, answered, last_line, words_of};
use nd_tree::NdTree;
use pls_io::{MemSink, MemSource};
use pls_pool::{Desk, OneQueue};
use pls_problem::{Instance, read};
use pls_search::{NoMemory, Outcome, search};
use pls_top::{Counts, Gate, Journal, NoGate, Status, report_text, run};
use pls_turn::Turned;
use pls_vectors::Sol;
use std::alloc::{AllocError, Global};
use std::sync::Wait;
use std::test::*;
use std::thread::Threads;

pub(crate) const FOUR_CITIES: &str = "pls1 tour 2 4\n1 9 1 1 9 1\n9 1 5 5 1 9\n";

/// The instance of a short text.
pub(crate) fn short_instance(alloc: Global, text: &str) -> Option<Instance> {
    if text.len() > 1000 {
        return None;
    }
    read(alloc, text.as_bytes()).ok()
}

/// The choice of these items among fewer than 65: bit i is item i.
fn choice(items: u16, chosen: u64) -> Sol
    requires some { 1 ≤ items }
    requires few { items ≤ 64 }
{
    let mut words = [0; 32];
    words[0] = chosen;
    Sol::of_words(items, words)
}

pub(crate) fn are_feasible(instance: &Instance, starts: &[Sol]) -> bool
    ensures { result ≡ true → All (λ s. feasible instance.now s ≡ true) starts.now }
{
    starts.iter().all(|start| instance.is_feasible(start))
}

/// The report of what a search found, and the pass that is left.
pub(crate) fn report_found<P: Drop>(
    alloc: Global,
    instance: &Instance,
    found: Result<Outcome<P>, NoMemory<P>>,
) -> Result<(Vec<u8>, P), AllocError> {
    match found {
        Ok(
            Outcome {
                end,
                front,
                explored,
                evaluated,
                accepted,
                pass,
            },
        ) => {
            let counts = Counts {
                explored,
                evaluated,
                accepted,
            };
            let text = report_text(alloc, instance, &front, counts, end)?;
            Ok((text, pass))
        }
        Err(NoMemory { pass: _pass }) => Err(AllocError),
    }
}

/// Searches from these starts, over an ND-tree that the workers share by turns, and one queue: the report of what was found.
fn search_from<R: Threads + Wait + Sync, G: Gate>(
    rt: &R,
    alloc: Global,
    instance: &Instance,
    starts: &[Sol],
    moves: u64,
    workers: u32,
    gate: &G,
) -> Result<Vec<u8>, AllocError>
    requires feasible { All (λ s. feasible instance.now s ≡ true) starts.now }
    requires starts { (1 ≤ length starts.now) × (length starts.now ≤ 64) }
    requires moves { moves ≤ 10 ^ 9 }
    requires workers { (1 ≤ workers) × (workers ≤ 16) }
{
    let members = NdTree::new(alloc, instance.objectives());
    let (archive, passes) = Turned::start(alloc, members, workers)?;
    let (pool, seats) = OneQueue::start(alloc, workers)?;
    let (desk, desk_seats) = Desk::start(alloc, moves, workers)?;
    let found = search(
        rt, alloc, instance, starts, &archive, passes, &pool, seats, &desk, desk_seats, gate,
    );
    let (text, _pass) = report_found(alloc, instance, found)?;
    Ok(text)
}

/// The text of a search of an instance's text from these starts; None where memory runs out, or a start is not feasible.
fn text_from<R: Threads + Wait + Sync, G: Gate>(
    rt: &R,
    alloc: Global,
    text: &str,
    starts: &[Sol],
    moves: u64,
    workers: u32,
    gate: &G,
) -> Option<Vec<u8>>
    requires starts { (1 ≤ length starts.now) × (length starts.now ≤ 64) }
    requires moves { moves ≤ 10 ^ 9 }
    requires workers { (1 ≤ workers) × (workers ≤ 16) }
{
    let instance = &short_instance(alloc, text)?;
    if !are_feasible(instance, starts) {
        return None;
    }
    search_from(rt, alloc, instance, starts, moves, workers, gate).ok()
}

#[test]
fn explores_from_given_starts(rt: HostRuntime) -> Result<(), Fail> {
    let last_item = choice(3, 0b100);
    let cases = [
        (
            THREE_ITEMS,
            last_item,
            9,
            "front 1 knapsack 2\n4 4 : 0 1\nend closed explored 3 evaluated 9 accepted 4\n",
        ),
        (
            THREE_ITEMS,
            last_item,
            3,
            "front 3 knapsack 2\n1 3 : 1\n2 2 : 2\n3 1 : 0\nend stopped explored 1 evaluated 3 accepted 3\n",
        ),
        (
            THREE_ITEMS,
            last_item,
            7,
            "front 1 knapsack 2\n4 4 : 0 1\nend stopped explored 2 evaluated 7 accepted 4\n",
        ),
        (
            FOUR_CITIES,
            Sol::order(4),
            1000,
            "front 2 tour 2\n20 12 : 0 2 1 3\n4 28 : 0 1 2 3\nend closed explored 2 evaluated 6 accepted 2\n",
        ),
    ];
    for (text, start, moves, written) in cases {
        assert!(&rt; moves <= 1000);
        let starts = [start];
        let found = text_from(&rt, rt.alloc(), text, &starts, moves, 1, &NoGate).ok_or("no text")?;
        assert_eq!(&rt;
            found.as_slice(),
            written.as_bytes(),
            "{moves} moves at {text}"
        );
    }
    Ok(())
}

#[test]
fn two_workers_meet(rt: HostRuntime) -> Result<(), Fail> {
    let alloc = rt.alloc();
    let starts = [Sol::of_entries(&[0, 1]), Sol::of_entries(&[1, 0])];
    let meeting = Meeting::new(alloc, 2, 0)?;
    let found = text_from(&rt, alloc, TWO_AGENTS, &starts, 1000, 2, &meeting).ok_or("no text")?;
    assert!(&rt; meeting.took_place());
    assert_eq!(&rt; found.as_slice(), TWO_AGENTS_FOUND.as_bytes());
    Ok(())
}

// Twelve items in six pairs, of which one item each fits: 64 trade-offs.
const SIX_PAIRS: &str =
    "pls1 knapsack 2 12 6\n1 1 1 1 1 1\n1 2 4 8 16 32 0 0 0 0 0 0\n0 0 0 0 0 0 1 2 4 8 16 32\n\
1 0 0 0 0 0 1 0 0 0 0 0\n0 1 0 0 0 0 0 1 0 0 0 0\n0 0 1 0 0 0 0 0 1 0 0 0\n\
0 0 0 1 0 0 0 0 0 1 0 0\n0 0 0 0 1 0 0 0 0 0 1 0\n0 0 0 0 0 1 0 0 0 0 0 1\n";

/// The text of a search of the six pairs that closed, with any starts and workers: the bits of the first profit are the pairs of
/// which the first item is chosen.
fn six_pairs_found(alloc: Global) -> Result<String, AllocError> {
    let mut text = String::new(alloc);
    text.push_str("front 64 knapsack 2\n")?;
    for profit in 0..64u64 {
        let other = 63 - profit;
        write!(text, "{profit} {other} :")?;
        push_items(&mut text, profit | (other << 6))?;
        text.push_str("\n")?;
    }
    text.push_str("end closed explored 64 evaluated 768 accepted 64\n")?;
    Ok(text)
}

/// Adds the items of a choice among twelve, each after a space.
fn push_items(text: &mut String, chosen: u64) -> Result<(), AllocError> {
    for item in 0..12u32 {
        if (chosen >> item) & 1 == 1 {
            write!(text, " {item}")?;
        }
    }
    Ok(())
}

#[test]
fn four_workers_meet(rt: HostRuntime) -> Result<(), Fail> {
    let alloc = rt.alloc();
    let starts = [
        choice(12, 0b000000_111111),
        choice(12, 0b111111_000000),
        choice(12, 0b101010_010101),
        choice(12, 0b010101_101010),
    ];
    let meeting = Meeting::new(alloc, 4, 0)?;
    let found = text_from(&rt, alloc, SIX_PAIRS, &starts, 1000, 4, &meeting).ok_or("no text")?;
    assert!(&rt; meeting.took_place());
    assert_eq!(&rt; found.as_slice(), six_pairs_found(alloc)?.as_bytes());
    Ok(())
}

// The start is one task, so the first exploration is let through: it makes six tasks.
#[test]
fn four_workers_of_the_program_meet(rt: HostRuntime) -> Result<(), Fail> {
    let alloc = rt.alloc();
    let words = words_of(alloc, &["search", "--workers", "4"])?;
    let mut source = MemSource::new(
        Vec::from_slice(alloc, SIX_PAIRS.as_bytes())?,
        Vec::new(alloc),
    );
    let mut sink = MemSink::new(alloc, 10_000, 1000, Vec::new(alloc))?;
    let meeting = Meeting::new(alloc, 4, 1)?;
    let mut journal = Journal::new();
    let status = run(
        &rt,
        alloc,
        &words,
        &mut source,
        &mut sink,
        &meeting,
        &mut journal,
    );
    assert!(&rt; meeting.took_place());
    assert_eq!(&rt; status, Status::Closed);
    assert_eq!(&rt; sink.written(), six_pairs_found(alloc)?.as_bytes());
    Ok(())
}

// Each of the 64 trade-offs has a row of its own, and so has the root.
#[test]
fn tells_that_no_row_was_free(rt: HostRuntime) -> Result<(), Fail> {
    let alloc = rt.alloc();
    let text = Vec::from_slice(alloc, SIX_PAIRS.as_bytes())?;
    let words = ["search", "--rows", "64", "--moves", "1000"];
    let (status, sink) = answered(&rt, alloc, &words, text, Vec::new(alloc))?;
    assert_eq!(&rt; status, Status::Full);
    assert!(&rt; last_line(sink.written()).starts_with(b"end full explored "));
    Ok(())
}

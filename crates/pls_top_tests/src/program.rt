//! The program over streams in memory.

use pls_io::{MemSink, MemSource, read_all};
use pls_top::{ArgWords, Journal, NoGate, Status, run};
use std::alloc::{AllocError, Global};
use std::sync::Wait;
use std::test::Fail;
use std::thread::Threads;

pub(crate) const TWO_ITEMS: &str = "pls1 knapsack 2 2 1\n10\n3 1\n1 3\n2 3\n";

pub(crate) const TWO_ITEMS_FOUND: &str =
    "front 1 knapsack 2\n4 4 : 0 1\nend closed explored 1 evaluated 2 accepted 1\n";

pub(crate) const TWO_AGENTS: &str = "pls1 assignment 2 2\n1 5 5 1\n5 1 1 5\n";

pub(crate) const TWO_AGENTS_FOUND: &str =
    "front 2 assignment 2\n10 2 : 1 0\n2 10 : 0 1\nend closed explored 2 evaluated 2 accepted 2\n";

/// The words of a command line.
pub(crate) fn words_of(alloc: Global, words: &[&str]) -> Result<ArgWords, AllocError> {
    let mut line = ArgWords::new(alloc);
    for word in words {
        line.push(word)?;
    }
    Ok(line)
}

/// So many spaces.
fn spaces(alloc: Global, count: usize) -> Result<Vec<u8>, AllocError> {
    vec![in alloc; b' '; count]
}

/// Runs the program without a gate, and with a journal of its own.
pub(crate) fn runs<R: Threads + Wait + Sync>(
    rt: &R,
    alloc: Global,
    words: &ArgWords,
    source: &mut MemSource,
    sink: &mut MemSink,
) -> Status {
    run(rt, alloc, words, source, sink, &NoGate, &mut Journal::new())
}

/// What the program answers to these words with this text, and the sink that it wrote to.
pub(crate) fn answered<R: Threads + Wait + Sync>(
    rt: &R,
    alloc: Global,
    words: &[&str],
    text: Vec<u8>,
    read_fails: Vec<u32>,
) -> Result<(Status, MemSink), AllocError> {
    let words = words_of(alloc, words)?;
    let mut source = MemSource::new(text, read_fails);
    let mut sink = MemSink::new(alloc, 10_000, 1000, Vec::new(alloc))?;
    let status = runs(rt, alloc, &words, &mut source, &mut sink);
    Ok((status, sink))
}

pub(crate) const THREE_ITEMS: &str = "pls1 knapsack 2 3 1\n5\n3 1 2\n1 3 2\n2 3 4\n";

// The words, the text, and what is answered and written.
const TEXTS: [(&[&str], &str, Status, &str); 29] = [
    (&["search"], TWO_ITEMS, Status::Closed, TWO_ITEMS_FOUND),
    (
        &["search", "--moves", "0"],
        TWO_ITEMS,
        Status::Stopped,
        "front 1 knapsack 2\n4 4 : 0 1\nend stopped explored 0 evaluated 0 accepted 1\n",
    ),
    (
        &["search", "--seed", "1"],
        THREE_ITEMS,
        Status::Closed,
        TWO_ITEMS_FOUND,
    ),
    (
        &["search", "--seed", "2"],
        THREE_ITEMS,
        Status::Closed,
        "front 1 knapsack 2\n4 4 : 0 1\nend closed explored 3 evaluated 9 accepted 4\n",
    ),
    (
        &["search", "--moves=2"],
        TWO_ITEMS,
        Status::Closed,
        TWO_ITEMS_FOUND,
    ),
    (
        &["--seed=7", "search", "--workers", "2"],
        TWO_ITEMS,
        Status::Closed,
        TWO_ITEMS_FOUND,
    ),
    (
        &["search", "--moves", "0"],
        "pls1 knapsack 2 1 1\n0\n1\n1\n1\n",
        Status::Closed,
        "front 1 knapsack 2\n0 0 : -\nend closed explored 1 evaluated 0 accepted 1\n",
    ),
    (
        &["search", "--starts", "64", "--moves", "0"],
        "pls1 knapsack 2 2 1\n1\n1 0\n0 1\n1 1\n",
        Status::Stopped,
        "front 2 knapsack 2\n0 1 : 1\n1 0 : 0\nend stopped explored 0 evaluated 0 accepted 2\n",
    ),
    (
        &["search"],
        "pls1 knapsack 2 2 1\n10\n3 1\n1 3\n2 3\n\t# done\n",
        Status::Closed,
        TWO_ITEMS_FOUND,
    ),
    (
        &["search"],
        "pls1 knapsack 2 1 1\n5\n1000000\n1\n1\n",
        Status::Closed,
        "front 1 knapsack 2\n1000000 1 : 0\nend closed explored 1 evaluated 1 accepted 1\n",
    ),
    (
        &["search"],
        "pls1 knapsack 2 1 1\n5\n1000001\n1\n1\n",
        Status::BadInstance,
        "error instance range 22\n",
    ),
    (
        &["search"],
        "pls1 knapsack 2 2 1\n10\n3 1\n1 3\n2 3\n7\n",
        Status::BadInstance,
        "error instance extra 35\n",
    ),
    (
        &["search"],
        "pls1 knapsack 2 2 1\n10\n3 1\n1 3\n2",
        Status::BadInstance,
        "error instance short 32\n",
    ),
    (
        &["search"],
        "",
        Status::BadInstance,
        "error instance short 0\n",
    ),
    (
        &["search"],
        "pls3 knapsack",
        Status::BadInstance,
        "error instance head 0\n",
    ),
    (
        &["search"],
        "pls1 lot",
        Status::BadInstance,
        "error instance shape 5\n",
    ),
    (
        &["search"],
        "pls1 knapsack two",
        Status::BadInstance,
        "error instance word 14\n",
    ),
    (
        &["search"],
        "pls1 knapsack 5 1 1",
        Status::BadInstance,
        "error instance range 14\n",
    ),
    (&["serch"], TWO_ITEMS, Status::Usage, "error usage\n"),
    (
        &["demo", "--size", "1", "--seed", "9"],
        "",
        Status::Closed,
        "demo knapsack 1 2 seed 9\nmembers 1 first 0 0 last 0 0\nend closed explored 1 evaluated 0 accepted 1\n",
    ),
    (&["search"], TWO_AGENTS, Status::Closed, TWO_AGENTS_FOUND),
    (
        &["search", "--seed", "1"],
        "pls1 tour 2 3\n1 2 3\n4 5 6\n",
        Status::Closed,
        "front 1 tour 2\n6 15 : 0 1 2\nend closed explored 1 evaluated 1 accepted 1\n",
    ),
    (
        &["search"],
        "pls1 assignment 2 2\n1 5\n5 1\n5 1\n",
        Status::BadInstance,
        "error instance short 32\n",
    ),
    (
        &["search", "--kind", "tour", "--size", "2"],
        "pls1 tour 2 2\n1\n1\n",
        Status::BadInstance,
        "error instance range 12\n",
    ),
    (
        &["make", "--kind", "tour", "--size", "3", "--seed", "5"],
        "",
        Status::Closed,
        "pls1 tour 2 3\n59 51 44\n47 100 95\n",
    ),
    (
        &["make", "--kind", "tour", "--size", "2"],
        "",
        Status::Usage,
        "error usage\n",
    ),
    (
        &["demo", "--kind", "tour", "--size", "5", "--seed", "2"],
        "",
        Status::Closed,
        "demo tour 5 2 seed 2\nmembers 1 first 177 144 last 177 144\nend closed explored 3 evaluated 18 accepted 5\n",
    ),
    (
        &["demo", "--kind", "assignment", "--size", "4", "--seed", "2"],
        "",
        Status::Closed,
        "demo assignment 4 2 seed 2\nmembers 6 first 304 140 last 87 279\nend closed explored 8 evaluated 48 accepted 11\n",
    ),
    (
        &["make", "--size", "257"],
        "",
        Status::Usage,
        "error usage\n",
    ),
];

#[test]
fn answers_words_and_texts(rt: HostRuntime) -> Result<(), Fail> {
    for (words, text, status, written) in TEXTS {
        let bytes = Vec::from_slice(rt.alloc(), text.as_bytes())?;
        let (answer, sink) = answered(&rt, rt.alloc(), words, bytes, Vec::new(rt.alloc()))?;
        assert_eq!(&rt; answer, status, "{words:?} at {text}");
        assert_eq!(&rt; sink.written(), written.as_bytes(), "{words:?} at {text}");
    }
    Ok(())
}

#[test]
fn searches_what_it_made(rt: HostRuntime) -> Result<(), Fail> {
    let alloc = rt.alloc();
    let made = ["--size", "20", "--objectives", "3", "--seed", "5"];
    let [size, items, objectives, three, seed, five] = made;
    let (status, text) = answered(
        &rt,
        alloc,
        &["make", size, items, objectives, three, seed, five],
        Vec::new(alloc),
        Vec::new(alloc),
    )?;
    assert_eq!(&rt; status, Status::Closed);
    assert!(&rt; text.written().starts_with(b"pls1 knapsack 3 20 1\n"));
    // the search of the text and the demo of the same seed end alike
    let bytes = Vec::from_slice(alloc, text.written())?;
    let (status, front) = answered(&rt, alloc, &["search", seed, five], bytes, Vec::new(alloc))?;
    let (same, demo) = answered(
        &rt,
        alloc,
        &["demo", size, items, objectives, three, seed, five],
        Vec::new(alloc),
        Vec::new(alloc),
    )?;
    assert_eq!(&rt; status, same);
    let end = last_line(front.written());
    assert!(&rt; end.starts_with(b"end closed explored "));
    assert_eq!(&rt; end, last_line(demo.written()));
    Ok(())
}

/// The last line of a text.
pub(crate) fn last_line(text: &[u8]) -> &[u8] {
    text.split(|byte| *byte == b'\n')
        .rev()
        .nth(1)
        .unwrap_or(b"")
}

#[test]
fn leaves_the_source_where_no_search_is_asked_for(rt: HostRuntime) -> Result<(), Fail> {
    for words in [
        ["make"].as_slice(),
        &["demo", "--moves", "9"],
        &["search", "search"],
        &[],
    ] {
        let words = words_of(rt.alloc(), words)?;
        let text = Vec::from_slice(rt.alloc(), b"rest")?;
        let mut source = MemSource::new(text, Vec::new(rt.alloc()));
        let mut sink = MemSink::new(rt.alloc(), 10_000, 1000, Vec::new(rt.alloc()))?;
        runs(&rt, rt.alloc(), &words, &mut source, &mut sink);
        let rest = read_all(rt.alloc(), &mut source, 100)
            .ok()
            .ok_or("refused")?;
        assert_eq!(&rt; rest.as_slice(), b"rest".as_slice());
    }
    Ok(())
}

#[test]
fn answers_a_source_that_fails(rt: HostRuntime) -> Result<(), Fail> {
    let text = Vec::from_slice(rt.alloc(), TWO_ITEMS.as_bytes())?;
    let (status, sink) = answered(&rt, rt.alloc(), &["search"], text, vec![in rt.alloc(); 2]?)?;
    assert_eq!(&rt; status, Status::ReadFault);
    assert_eq!(&rt; sink.written(), b"error read\n".as_slice());
    Ok(())
}

#[test]
fn answers_long_texts(rt: HostRuntime) -> Result<(), Fail> {
    let cases = [
        (16_777_217, Status::TooLong, "error too long\n"),
        (
            16_777_216,
            Status::BadInstance,
            "error instance short 16777216\n",
        ),
    ];
    for (length, status, written) in cases {
        let text = spaces(rt.alloc(), length)?;
        let (answer, sink) = answered(&rt, rt.alloc(), &["search"], text, Vec::new(rt.alloc()))?;
        assert_eq!(&rt; answer, status);
        assert_eq!(&rt; sink.written(), written.as_bytes());
    }
    Ok(())
}

#[test]
fn answers_a_sink_that_fails(rt: HostRuntime) -> Result<(), Fail> {
    let words = words_of(rt.alloc(), &["search"])?;
    let cases = [
        (TWO_ITEMS, 2, "front 1 kn"),
        (TWO_AGENTS, 2, "front 2 as"),
        ("pls1", 1, ""),
        ("pls1", 2, "error inst"),
    ];
    for (text, call, written) in cases {
        let bytes = Vec::from_slice(rt.alloc(), text.as_bytes())?;
        let mut source = MemSource::new(bytes, Vec::new(rt.alloc()));
        let mut sink = MemSink::new(rt.alloc(), 100, 10, vec![in rt.alloc(); call]?)?;
        let status = runs(&rt, rt.alloc(), &words, &mut source, &mut sink);
        assert_eq!(&rt; status, Status::WriteFault, "at {text}");
        assert_eq!(&rt; sink.written(), written.as_bytes(), "at {text}");
    }
    Ok(())
}

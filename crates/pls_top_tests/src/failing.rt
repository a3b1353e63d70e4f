//! What a user might hand in that is no instance, and a sink that fails at each byte.

use crate::program::{TWO_ITEMS, TWO_ITEMS_FOUND, answered, runs, words_of};
use pls_io::{MemSink, MemSource};
use pls_top::Status;
use std::alloc::{AllocError, Global};
use std::sync::Wait;
use std::test::Fail;
use std::thread::Threads;

// Texts that are no instance, and the line of the first fault of each; the bytes before it were counted by hand.
const FAULTY: [(&str, &str); 14] = [
    ("# a comment alone\n", "error instance short 18\n"),
    ("pls1\n", "error instance short 5\n"),
    ("pls1 knapsack 2 2\n", "error instance short 18\n"),
    // one profit is missing, so that the last weight is
    (
        "pls1 knapsack 2 2 1\n10\n3\n1 3\n2 3\n",
        "error instance short 33\n",
    ),
    // as many capacities as objectives
    (
        "pls1 knapsack 2 2 1\n10 10\n3 1\n1 3\n2 3\n",
        "error instance extra 36\n",
    ),
    // line ends of two bytes
    (
        "pls1 tour 2 3\r\n1 2 3\r\n4 5 6\r\n7\r\n",
        "error instance extra 29\n",
    ),
    // a byte order mark
    (
        "\u{feff}pls1 tour 2 3\n1 2 3\n4 5 6\n",
        "error instance head 0\n",
    ),
    ("# towns\nPLS1 tour 2 3\n", "error instance head 8\n"),
    ("pls1\tKnapsack 2 2 1\n", "error instance shape 5\n"),
    (
        "pls1 knapsack 2 2 1\n10\n3 1\n1 3\n2 3kg\n",
        "error instance word 33\n",
    ),
    (
        "pls1 assignment 2 2\n1 5 5 -1\n5 1 1 5\n",
        "error instance word 26\n",
    ),
    (
        "pls1 knapsack 2 2 1\n10\n3 1\n1 3\n2 1000001\n",
        "error instance range 33\n",
    ),
    // a letter, then a number above its limit, then a word too many
    (
        "pls1 tour 2 3\n1 2x 3\n4 1000001 6\n7\n",
        "error instance word 16\n",
    ),
    // a number of objectives above its limit, and the end
    ("pls1 assignment 5 ", "error instance range 16\n"),
];

#[test]
fn tells_the_first_fault(rt: HostRuntime) -> Result<(), Fail> {
    for (text, line) in FAULTY {
        let bytes = Vec::from_slice(rt.alloc(), text.as_bytes())?;
        let (status, sink) = answered(&rt, rt.alloc(), &["search"], bytes, Vec::new(rt.alloc()))?;
        assert_eq!(&rt; status, Status::BadInstance, "at {text}");
        assert_eq!(&rt; sink.written(), line.as_bytes(), "at {text}");
    }
    Ok(())
}

/// What the program answers to a search of the two items, and the sink that it wrote to: it takes one byte a call, and the call
/// with this number fails.
fn failed_at<R: Threads + Wait + Sync>(
    rt: &R,
    alloc: Global,
    call: u32,
) -> Result<(Status, MemSink), AllocError> {
    let words = words_of(alloc, &["search", "--rows", "64"])?;
    let text = Vec::from_slice(alloc, TWO_ITEMS.as_bytes())?;
    let mut source = MemSource::new(text, Vec::new(alloc));
    let mut sink = MemSink::new(alloc, 100, 1, vec![in alloc; call]?)?;
    let status = runs(rt, alloc, &words, &mut source, &mut sink);
    Ok((status, sink))
}

#[test]
fn answers_a_sink_that_fails_at_each_byte(rt: HostRuntime) -> Result<(), Fail> {
    let whole = TWO_ITEMS_FOUND.as_bytes();
    assert_eq!(&rt; whole.len(), 74);
    // the last of these calls does not come
    for before in 0..75u32 {
        let (status, sink) = failed_at(&rt, rt.alloc(), before + 1)?;
        let due = if before < 74 {
            Status::WriteFault
        } else {
            Status::Closed
        };
        assert_eq!(&rt; status, due, "after {before} bytes");
        assert_eq!(&rt;
            sink.written(),
            &whole[..before as usize],
            "after {before} bytes"
        );
    }
    Ok(())
}

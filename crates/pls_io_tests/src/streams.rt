//! All of a source, and all of a text into a sink, over streams in memory.
ghost use Rattle.std.specs.Prelude.{◌≡◌, ◌≤◌, ℕ, OnOk, OnErr, IfOk};
ghost use Rattle.pls_io.specs.Streams.{untold, Rose, Reads};

use pls_io::{Failed, MemSink, MemSource, ReadRefusal, Source, WriteRefusal, read_all, write_all};
use std::test::Fail;

const TWO_ITEMS: &[u8] = b"pls1 knapsack 2 2 1\n10\n3 1\n1 3\n2 3\n";

// The bytes, the calls that fail, the limit, and what is read.
const READS: [(&[u8], &[u32], usize, Result<usize, ReadRefusal>); 8] = [
    (b"", &[], 0, Ok(0)),
    (b"a", &[], 0, Err(ReadRefusal::TooLong)),
    (TWO_ITEMS, &[], 35, Ok(35)),
    (TWO_ITEMS, &[], 34, Err(ReadRefusal::TooLong)),
    (TWO_ITEMS, &[], usize::MAX, Ok(35)),
    (TWO_ITEMS, &[1], 35, Err(ReadRefusal::ReadFault)),
    (TWO_ITEMS, &[2], 35, Err(ReadRefusal::ReadFault)),
    (TWO_ITEMS, &[3], 35, Ok(35)),
];

#[test]
fn reads_up_to_the_limit(rt: HostRuntime) -> Result<(), Fail> {
    let alloc = rt.alloc();
    for (bytes, fails, limit, want) in READS {
        let mut source = MemSource::new(bytes.to_vec(alloc)?, fails.to_vec(alloc)?);
        let read = read_all(alloc, &mut source, limit);
        match read {
            Ok(all) => {
                assert_eq!(rt; want, Ok(all.len()));
                assert!(rt; all.as_slice() == bytes);
            }
            Err(refusal) => assert_eq!(rt; want, Err(refusal)),
        }
    }
    Ok(())
}

#[test]
fn reads_more_than_a_piece(rt: HostRuntime) -> Result<(), Fail> {
    let alloc = rt.alloc();
    let text = vec![in alloc; 32u8; 200_000]?;
    let mut source = MemSource::new(text, Vec::new(alloc));
    let all = read_all(alloc, &mut source, 200_000).ok().ok_or("refused")?;
    assert_eq!(rt; all.len(), 200_000);
    Ok(())
}

// A source that notes how long a buffer it was handed, and gives three buffers full.
#[derive(Drop)]
struct Measuring {
    widest: usize,
    calls: u32,
}

impl Source for Measuring {
    ghost faults = { λ _. 0 };

    ghost left = { λ _. untold };

    fn read(&mut self, buf: &mut [u8]) -> Result<usize, Failed>
        ensures count { 0 ≤ 0 }
        ensures cause { OnErr result (Rose 0 0) }
        ensures steady { OnOk result (◌≡◌ {A = ℕ} 0 0) }
        ensures kept { OnErr result (untold ≡ untold) }
        ensures reads { IfOk result (λ n. Reads n untold buf.old untold buf.new) }
    {
        self.widest = self.widest.max(buf.len());
        self.calls = self.calls.saturating_add(1);
        Ok(if self.calls <= 3 { buf.len() } else { 0 })
    }
}

#[test]
fn reads_in_pieces_of_a_bounded_length(rt: HostRuntime) -> Result<(), Fail> {
    let mut source = Measuring {
        widest: 0,
        calls: 0,
    };
    let all = read_all(rt.alloc(), &mut source, 1_000_000)
        .ok()
        .ok_or("refused")?;
    assert_eq!(rt; (source.widest, source.calls), (65_536, 4));
    assert_eq!(rt; all.len(), 3 * 65_536);
    Ok(())
}

// The room, the most that a call takes, the calls that fail, how much of the text is written, and
// whether that is all of it.
const WRITES: [(usize, usize, &[u32], usize, bool); 7] = [
    (35, 10, &[], 35, true),
    (35, 35, &[], 35, true),
    (35, 10, &[1], 0, false),
    (35, 10, &[2], 10, false),
    (35, 10, &[5], 35, true),
    (34, 10, &[], 34, false),
    (0, 10, &[], 0, false),
];

#[test]
fn writes_a_front(rt: HostRuntime) -> Result<(), Fail> {
    let alloc = rt.alloc();
    for (room, most, fails, written, is_all) in WRITES {
        assert!(rt; most > 0 && written <= TWO_ITEMS.len());
        let mut sink = MemSink::new(alloc, room, most, fails.to_vec(alloc)?)?;
        let want = if is_all {
            Ok(())
        } else {
            Err(WriteRefusal::WriteFault(written))
        };
        assert_eq!(rt; write_all(&mut sink, TWO_ITEMS), want);
        assert!(rt; sink.written() == &TWO_ITEMS[..written]);
    }
    Ok(())
}

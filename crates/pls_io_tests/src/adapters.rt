//! The adapters over the real streams, over a runtime of the tests that fails and moves little at a time.
ghost use Rattle.std.specs.Prelude.{◌≤◌, length, IfOk};

use pls_io::{Failed, Sink, Source, StdSink, StdSource, read_all, write_all};
use std::alloc::Allocator;
use std::cell::Cell;
use std::fmt::Display;
use std::io;
use std::io::{BufRead, Error, ErrorKind, Input, Lines, Read};
use std::test::Fail;

// How many bytes the input has, and the output is to take.
const LENGTH: usize = 200_000;

// The byte at a place: no two neighbours are equal, and no two pieces.
fn pattern(place: usize) -> u8 {
    (place % 251) as u8
}

// A runtime whose first calls fail with this kind of error. Each later call moves a few bytes at most:
// the bytes of the pattern, one after another, are its input, and are expected as its output.
#[derive(Drop)]
struct Device {
    kind: ErrorKind,
    failures: Cell<u32>,
    most: usize,
    place: Cell<usize>,
    is_patterned: Cell<bool>,
}

impl Device {
    fn new(kind: ErrorKind, failures: u32, most: usize) -> Self {
        Device {
            kind,
            failures: Cell::new(failures),
            most,
            place: Cell::new(0),
            is_patterned: Cell::new(true),
        }
    }

    // Fails, or answers where the bytes of this call begin, and how many they are.
    fn call(&self, room: usize) -> io::Result<(usize, usize)>
        ensures { IfOk result (λ moved. moved.1 ≤ room) }
    {
        let left = self.failures.get();
        if left > 0 {
            self.failures.set(left - 1);
            return Err(Error::from(self.kind));
        }
        let place = self.place.get();
        let count = LENGTH.saturating_sub(place).min(self.most).min(room);
        self.place.set(place.saturating_add(count));
        Ok((place, count))
    }
}

impl Read for Device {
    fn read(&mut self, buf: &mut [u8]) -> io::Result<usize> {
        let (place, count) = self.call(buf.len())?;
        for k in 0..count {
            buf[k] = pattern(place.saturating_add(k));
        }
        Ok(count)
    }
}

impl BufRead for Device {
    fn fill_buf(&mut self) -> io::Result<&[u8]> {
        Ok(&[])
    }

    fn consume(&mut self, _amount: usize) {}
}

impl Input for Device {
    type Reader = Device;

    fn read_line<A: Allocator + Clone>(&self, _buf: &mut String<A>) -> io::Result<usize> {
        Err(Error::from(ErrorKind::Unsupported))
    }

    fn lines<A: Allocator>(&self, alloc: A) -> Lines<Device, A> {
        self.reader().lines(alloc)
    }

    fn reader(&self) -> Device {
        Device::new(self.kind, self.failures.get(), self.most)
    }
}

impl Print for Device {
    fn print<D: Display + Drop>(&self, _value: D) -> io::Result<()> {
        Err(Error::from(ErrorKind::Unsupported))
    }

    fn println<D: Display + Drop>(&self, _value: D) -> io::Result<()> {
        Err(Error::from(ErrorKind::Unsupported))
    }

    fn write_all(&self, _bytes: &[u8]) -> io::Result<()> {
        Err(Error::from(ErrorKind::Unsupported))
    }

    fn write_some(&self, bytes: &[u8]) -> io::Result<usize>
        ensures { IfOk result (λ n. n ≤ length bytes.now) }
    {
        let (place, count) = self.call(bytes.len())?;
        for k in 0..count {
            if bytes[k] != pattern(place.saturating_add(k)) {
                self.is_patterned.set(false);
            }
        }
        Ok(count)
    }
}

// The error, how often it comes, and the answers to two calls that move one byte each. An interrupted
// call is made again, a thousand times at most; any other error is a fault at once.
const FAILURES: [(ErrorKind, u32, [Result<usize, Failed>; 2]); 5] = [
    (ErrorKind::Interrupted, 0, [Ok(1), Ok(1)]),
    (ErrorKind::Interrupted, 1_000, [Ok(1), Ok(1)]),
    (ErrorKind::Interrupted, 1_001, [Err(Failed), Ok(1)]),
    (ErrorKind::BrokenPipe, 1, [Err(Failed), Ok(1)]),
    (ErrorKind::BrokenPipe, 2, [Err(Failed), Err(Failed)]),
];

#[test]
fn an_interrupted_read_alone_is_made_again(rt: HostRuntime) {
    for (kind, failures, wanted) in FAILURES {
        let mut source = StdSource::new(&Device::new(kind, failures, 1));
        for want in wanted {
            assert_eq!(rt;
                source.read(&mut [0; 8]),
                want,
                "{kind:?}, {failures} times"
            );
        }
    }
}

#[test]
fn an_interrupted_write_alone_is_made_again(rt: HostRuntime) {
    for (kind, failures, wanted) in FAILURES {
        let device = Device::new(kind, failures, 1);
        let mut sink = StdSink::new(&device);
        let bytes = [pattern(0), pattern(1)];
        for want in wanted {
            assert_eq!(rt; sink.write(&bytes), want, "{kind:?}, {failures} times");
        }
    }
}

#[test]
fn reads_all_of_a_long_input(rt: HostRuntime) -> Result<(), Fail> {
    let mut source = StdSource::new(&Device::new(ErrorKind::Interrupted, 1, 30_001));
    let all = read_all(rt.alloc(), &mut source, LENGTH)
        .ok()
        .ok_or("refused")?;
    assert_eq!(rt; all.len(), LENGTH);
    for (place, byte) in all.iter().enumerate() {
        assert!(rt; *byte == pattern(place), "at {place}");
    }
    Ok(())
}

#[test]
fn writes_all_of_a_long_text(rt: HostRuntime) -> Result<(), Fail> {
    let mut text = Vec::new(rt.alloc());
    for place in 0..LENGTH {
        text.push(pattern(place))?;
    }
    let device = Device::new(ErrorKind::Interrupted, 1, 30_001);
    let mut sink = StdSink::new(&device);
    assert_eq!(rt; write_all(&mut sink, text.as_slice()), Ok(()));
    assert_eq!(rt;
        (device.place.get(), device.is_patterned.get()),
        (LENGTH, true)
    );
    Ok(())
}

#[test]
fn a_write_that_takes_nothing_is_a_fault(rt: HostRuntime) {
    let full = Device::new(ErrorKind::Interrupted, 0, 0);
    let mut sink = StdSink::new(&full);
    assert_eq!(rt; sink.write(b""), Ok(0));
    assert_eq!(rt; sink.write(b"front"), Err(Failed));
    assert_eq!(rt; StdSink::new(&rt).write(b""), Ok(0));
}

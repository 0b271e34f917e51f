use crate::{Arm, Clock, Got, MemClock, MemSink, MemSource, Put, Sink, Source, StdSink, StdSource};
use std::io::{Cursor, Error, ErrorKind, Read, Result, Write};
use std::test::Fail;

// One read of at most four bytes, and those bytes.
fn read_four<S: Source>(source: &mut S) -> (Got, [u8; 4]) {
    let mut buf = [0; 4];
    let got = source.read(&mut buf);
    (got, buf)
}

fn write_to<S: Sink>(sink: &mut S, bytes: &[u8]) -> Put {
    sink.write(bytes)
}

fn faults_of_source<S: Source>(source: &S) -> u64 {
    source.faults()
}

fn faults_of_sink<S: Sink>(sink: &S) -> u64 {
    sink.faults()
}

// A reader and writer whose calls fail, but for the numbers that let them through.
#[derive(Drop)]
struct Flaky {
    calls: u64,
    kind: ErrorKind,
}

impl Flaky {
    // Whether this call, of three each, is let through.
    fn is_let_through(&mut self) -> bool {
        self.calls = self.calls.wrapping_add(1);
        self.calls % 3 == 0
    }
}

impl Read for Flaky {
    fn read(&mut self, buf: &mut [u8]) -> Result<usize> {
        if !self.is_let_through() {
            return Err(Error::from(self.kind));
        }
        Ok(buf.len().min(1))
    }
}

impl Write for Flaky {
    fn write(&mut self, buf: &[u8]) -> Result<usize> {
        if !self.is_let_through() {
            return Err(Error::from(self.kind));
        }
        Ok(buf.len().min(1))
    }

    fn flush(&mut self) -> Result<()> {
        Ok(())
    }
}

#[test]
fn chosen_calls_fail_and_change_the_counts_alone(rt: HostRuntime) -> std::result::Result<(), Fail> {
    let bytes = Vec::from_slice(rt.alloc(), b"abcdef")?;
    let fails = Vec::from_slice(rt.alloc(), &[1, 3])?;
    let mut source = MemSource::new(bytes, fails);
    let reads = [
        (Got::Taken(4), *b"abcd", 0),
        (Got::Failed, [0; 4], 1),
        (Got::Taken(2), [b'e', b'f', 0, 0], 1),
        (Got::Failed, [0; 4], 2),
        (Got::End, [0; 4], 2),
        (Got::End, [0; 4], 2),
    ];
    for (got, buf, faults) in reads {
        assert_eq!(rt; read_four(&mut source), (got, buf));
        assert_eq!(rt; faults_of_source(&source), faults);
    }
    let mut sink = MemSink::new(rt.alloc(), Vec::from_slice(rt.alloc(), &[0, 2])?);
    let writes = [
        (Put::Failed, 1),
        (Put::All, 1),
        (Put::Failed, 2),
        (Put::All, 2),
    ];
    for (put, faults) in writes {
        assert_eq!(rt; write_to(&mut sink, b"xy"), put);
        assert_eq!(rt; faults_of_sink(&sink), faults);
    }
    assert_eq!(rt; sink.bytes(), b"xyxy".as_slice());
    Ok(())
}

#[test]
fn readers_and_writers_of_std_are_adapted(rt: HostRuntime) -> std::result::Result<(), Fail> {
    let mut source = StdSource::new(Cursor::new(b"abcde".as_slice()));
    assert_eq!(rt; read_four(&mut source), (Got::Taken(4), *b"abcd"));
    assert_eq!(rt; read_four(&mut source), (Got::Taken(1), [b'e', 0, 0, 0]));
    assert_eq!(rt; read_four(&mut source).0, Got::End);
    assert_eq!(rt; faults_of_source(&source), 0);
    let mut kept = Vec::new(rt.alloc());
    let mut sink = StdSink::new(&mut kept);
    assert_eq!(rt; write_to(&mut sink, b"abc"), Put::All);
    assert_eq!(rt; write_to(&mut sink, b"de"), Put::All);
    assert_eq!(rt; faults_of_sink(&sink), 0);
    drop(sink);
    assert_eq!(rt; kept.as_slice(), b"abcde".as_slice());
    Ok(())
}

#[test]
fn failures_of_std_are_counted_and_interruptions_are_not(
    rt: HostRuntime,
) -> std::result::Result<(), Fail> {
    let mut source = StdSource::new(Flaky {
        calls: 0,
        kind: ErrorKind::Other,
    });
    let mut sink = StdSink::new(Flaky {
        calls: 0,
        kind: ErrorKind::Other,
    });
    let answers = [
        (Got::Failed, Put::Failed, 1),
        (Got::Failed, Put::Failed, 2),
        (Got::Taken(1), Put::All, 2),
    ];
    for (got, put, faults) in answers {
        assert_eq!(rt; read_four(&mut source).0, got);
        assert_eq!(rt; write_to(&mut sink, b"x"), put);
        assert_eq!(rt;
            (faults_of_source(&source), faults_of_sink(&sink)),
            (faults, faults)
        );
    }
    let mut source = StdSource::new(Flaky {
        calls: 0,
        kind: ErrorKind::Interrupted,
    });
    let mut sink = StdSink::new(Flaky {
        calls: 0,
        kind: ErrorKind::Interrupted,
    });
    assert_eq!(rt; read_four(&mut source).0, Got::Taken(1));
    assert_eq!(rt; write_to(&mut sink, b"xyz"), Put::All);
    assert_eq!(rt; (faults_of_source(&source), faults_of_sink(&sink)), (0, 0));
    // a writer with no room left takes nothing
    let mut room = [0; 2];
    let mut sink = StdSink::new(room.as_mut_slice());
    assert_eq!(rt; write_to(&mut sink, b"xyz"), Put::Failed);
    assert_eq!(rt; faults_of_sink(&sink), 1);
    Ok(())
}

// A device whose calls do nothing but count.
#[derive(Drop)]
struct Bell {
    armed: bool,
    calls: u64,
}

impl Bell {
    // Whether it rang: it fails where it was armed.
    fn ring(&mut self) -> bool {
        let rang = !self.armed;
        self.armed = false;
        self.calls = self.calls.saturating_add(1);
        rang
    }
}

impl Arm for Bell {
    ghost armed = { λ s. s.armed };

    ghost calls_made = { λ s. s.calls };

    fn arm(&mut self) {
        self.armed = true;
    }

    fn calls(&self) -> u64 {
        self.calls
    }
}

fn arm_it<D: Arm>(device: &mut D) -> u64 {
    device.arm();
    device.calls()
}

#[test]
fn an_armed_device_fails_once(rt: HostRuntime) -> std::result::Result<(), Fail> {
    let mut bell = Bell {
        armed: false,
        calls: 0,
    };
    assert_eq!(rt; bell.ring(), true);
    assert_eq!(rt; arm_it(&mut bell), 1);
    assert_eq!(rt; (bell.ring(), bell.ring(), bell.calls()), (false, true, 3));
    Ok(())
}

fn moment_of<C: Clock>(clock: &mut C) -> u64 {
    clock.moment()
}

#[test]
fn a_clock_in_memory_gives_its_moments_in_turn(rt: HostRuntime) -> std::result::Result<(), Fail> {
    let last = 9_223_372_036_854_775_807;
    let mut clock = MemClock::new(Vec::from_slice(rt.alloc(), &[7, 7, last, 3])?);
    for moment in [7, 7, last, 3, 0, 0] {
        assert_eq!(rt; moment_of(&mut clock), moment);
    }
    Ok(())
}

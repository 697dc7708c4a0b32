//! Sources and sinks, and what reads all of one or writes to the other.
use sim_io::{
    CleanSink, CleanSource, Failed, MemSink, MemSource, ReadEnd, Sink, Source, StdSink, StdSource,
    read_all, read_some, write_all,
};
use std::alloc::Global;
use std::io;
use std::io::{Cursor, ErrorKind, Read, Write};
use std::process::Abort;
use std::test::Fail;

/// 47 bytes: three pieces of at most 16.
const TEXT: &[u8] = b"in arrivals 0 served 3 lost 0 busy 0 waiting 0\n";

/// A source of the text that gives 16 bytes a read, and fails at these calls.
fn source_of(alloc: Global, fails: &[u64]) -> Result<MemSource, Fail> {
    let fails = fails.to_vec(alloc)?;
    Ok(MemSource::new(TEXT.to_vec(alloc)?, fails, 16))
}

#[test]
fn a_read_that_fails_in_mid_stream(rt: HostRuntime) -> Result<(), Fail> {
    let alloc = rt.alloc();
    for call in 1..=4 {
        let mut source = source_of(alloc, &[call])?;
        let failed = read_all(alloc, &mut source).is_err_and(|end| end == ReadEnd::Failed);
        assert!(rt; failed, "read {call} fails");
    }
    let mut source = source_of(alloc, &[5])?;
    assert!(rt; read_all(alloc, &mut source)?.as_slice() == TEXT);
    Ok(())
}

/// Of a source that may give so many bytes these are read first, and then the others.
fn assert_taken<R: Abort>(
    rt: &R,
    alloc: Global,
    most: usize,
    taken: &[u8],
    left: &[u8],
) -> Result<(), Fail> {
    assert!(rt; most < 100);
    let mut source = source_of(alloc, &[])?;
    let first = read_some(alloc, &mut source, most)?;
    assert!(rt; first.as_slice() == taken, "{most}");
    let rest = read_all(alloc, &mut source)?;
    assert!(rt; rest.as_slice() == left, "{most}");
    Ok(())
}

#[test]
fn one_byte_more_tells_that_an_input_is_too_long(rt: HostRuntime) -> Result<(), Fail> {
    for most in [0, 15, 16, 46] {
        let (taken, left) = TEXT.split_at(most + 1);
        assert_taken(&rt, rt.alloc(), most, taken, left)?;
    }
    assert_taken(&rt, rt.alloc(), 47, TEXT, b"")
}

/// A sink with so much room that takes 16 bytes a write, fails at these calls and takes nothing at those.
fn sink_of(alloc: Global, room: usize, fails: &[u64], idle: &[u64]) -> Result<MemSink, Fail> {
    let fails = fails.to_vec(alloc)?;
    let idle = idle.to_vec(alloc)?;
    Ok(MemSink::new(alloc, room, fails, idle, 16)?)
}

/// The text is written so, and so much of it is taken. The sink is lent, since an assertion beside what is owned is dear.
fn assert_written<R: Abort>(
    rt: &R,
    sink: &mut MemSink,
    written: Result<(), Failed>,
    taken: usize,
) -> Result<(), Fail> {
    assert!(rt; write_all(sink, TEXT) == written);
    assert!(rt; sink.bytes() == TEXT.get(..taken).ok_or("taken")?);
    Ok(())
}

#[test]
fn a_write_that_fails_in_mid_stream(rt: HostRuntime) -> Result<(), Fail> {
    let alloc = rt.alloc();
    for (call, taken) in [(1, 0), (2, 16), (3, 32)] {
        let mut failing = sink_of(alloc, 100, &[call], &[])?;
        assert_written(&rt, &mut failing, Err(Failed), taken)?;
        let mut idle = sink_of(alloc, 100, &[], &[call])?;
        assert_written(&rt, &mut idle, Err(Failed), taken)?;
    }
    let mut sink = sink_of(alloc, 47, &[4], &[4])?;
    assert_written(&rt, &mut sink, Ok(()), TEXT.len())
}

#[test]
fn a_sink_that_is_full(rt: HostRuntime) -> Result<(), Fail> {
    let mut sink = sink_of(rt.alloc(), 40, &[], &[])?;
    assert_written(&rt, &mut sink, Err(Failed), 40)
}

#[test]
fn what_never_fails(rt: HostRuntime) -> Result<(), Fail> {
    let alloc = rt.alloc();
    let mut source = CleanSource::new(TEXT.to_vec(alloc)?);
    assert!(rt; read_all(alloc, &mut source)?.as_slice() == TEXT);
    assert!(rt; write_all(&mut CleanSink::new(), TEXT) == Ok(()));
    Ok(())
}

#[test]
fn what_passes_through_a_reader_and_a_writer(rt: HostRuntime) -> Result<(), Fail> {
    let alloc = rt.alloc();
    let mut source = StdSource::new(TEXT);
    assert!(rt; read_all(alloc, &mut source)?.as_slice() == TEXT);
    let mut written = Vec::new(alloc);
    write_all(&mut StdSink::new(&mut written), TEXT)?;
    assert!(rt; written.as_slice() == TEXT);
    Ok(())
}

/// Fails at each call.
#[derive(Drop)]
struct Broken;

impl Read for Broken {
    fn read(&mut self, _into: &mut [u8]) -> io::Result<usize> {
        Err(io::Error::from(ErrorKind::BrokenPipe))
    }
}

impl Write for Broken {
    fn write(&mut self, _bytes: &[u8]) -> io::Result<usize> {
        Err(io::Error::from(ErrorKind::BrokenPipe))
    }

    fn flush(&mut self) -> io::Result<()> {
        Ok(())
    }
}

#[test]
fn a_reader_and_a_writer_that_fail(rt: HostRuntime) -> Result<(), Fail> {
    let alloc = rt.alloc();
    match read_all(alloc, &mut StdSource::new(Broken)) {
        Ok(_) => panic!(rt; "the reader fails"),
        Err(end) => assert!(rt; end == ReadEnd::Failed),
    }
    assert!(rt; write_all(&mut StdSink::new(Broken), TEXT) == Err(Failed));
    let mut small = [0u8; 5];
    assert!(rt;
        write_all(&mut StdSink::new(Cursor::new(small.as_mut_slice())), TEXT) == Err(Failed)
    );
    assert!(rt; small.as_slice() == b"in ar".as_slice());
    Ok(())
}

/// Fails at its second call and at no other, in the way after which std's own loops try again. Each other call moves a byte.
#[derive(Drop)]
struct FailsOnce {
    calls: u64,
}

impl FailsOnce {
    fn call(&mut self) -> io::Result<()> {
        self.calls = self.calls.saturating_add(1);
        if self.calls == 2 {
            return Err(io::Error::from(ErrorKind::Interrupted));
        }
        Ok(())
    }
}

impl Read for FailsOnce {
    fn read(&mut self, into: &mut [u8]) -> io::Result<usize> {
        self.call()?;
        Ok(into.len().min(1))
    }
}

impl Write for FailsOnce {
    fn write(&mut self, bytes: &[u8]) -> io::Result<usize> {
        self.call()?;
        Ok(bytes.len().min(1))
    }

    fn flush(&mut self) -> io::Result<()> {
        Ok(())
    }
}

#[test]
fn a_call_that_fails_once_is_told_and_not_tried_again(rt: HostRuntime) -> Result<(), Fail> {
    let mut reader = FailsOnce { calls: 0 };
    match read_all(rt.alloc(), &mut StdSource::new(&mut reader)) {
        Ok(_) => panic!(rt; "the reader fails"),
        Err(end) => assert!(rt; end == ReadEnd::Failed),
    }
    assert!(rt; reader.calls == 2);
    let mut writer = FailsOnce { calls: 0 };
    assert!(rt; write_all(&mut StdSink::new(&mut writer), TEXT) == Err(Failed));
    assert!(rt; writer.calls == 2);
    Ok(())
}

/// Takes all that it is given, and keeps it back until it is flushed.
#[derive(Drop)]
struct KeepsBack {
    kept: usize,
    handed: usize,
}

impl Write for KeepsBack {
    fn write(&mut self, bytes: &[u8]) -> io::Result<usize> {
        self.kept = self.kept.saturating_add(bytes.len());
        Ok(bytes.len())
    }

    fn flush(&mut self) -> io::Result<()> {
        self.handed = self.kept;
        Ok(())
    }
}

#[test]
fn what_a_writer_keeps_back_is_handed_on_by_a_flush(rt: HostRuntime) -> Result<(), Fail> {
    let mut writer = KeepsBack { kept: 0, handed: 0 };
    let mut sink = StdSink::new(&mut writer);
    write_all(&mut sink, TEXT)?;
    assert!(rt; sink.flush() == Ok(()));
    drop(sink);
    assert!(rt; (writer.kept, writer.handed) == (47, 47));
    Ok(())
}

// Every shelf and every sink, each through the bound of its trait.
use aos_dev::{FileShelf, Got, MemShelf, MemSink, NoFailSink, Put, Shelf, Sink, StdSink};
use std::alloc::{AllocError, Global};
use std::io::{self, ErrorKind, Write};
use std::process::Abort;
use std::test::Fail;

// Asks for the text, and wants this answer with these bytes.
fn expect_fetch<S: Shelf>(
    rt: &impl Abort,
    alloc: Global,
    shelf: &mut S,
    (name, most, answer, bytes): (&str, u64, Got, &[u8]),
) {
    let mut text = Vec::new(alloc);
    assert_eq!(rt; shelf.fetch(name, most, &mut text), answer, "{name}");
    assert!(rt; text.as_slice() == bytes, "{name}");
}

// Puts the piece, and wants this answer.
fn expect_put<S: Sink>(rt: &impl Abort, sink: &mut S, piece: &[u8], answer: Put) {
    assert_eq!(rt; sink.put(piece), answer);
}

fn file(alloc: Global, name: &str, text: &[u8]) -> Result<(String, Vec<u8>), AllocError> {
    Ok((
        String::from_str(alloc, name)?,
        Vec::from_slice(alloc, text)?,
    ))
}

#[test]
fn shelf_in_memory(rt: HostRuntime) -> Result<(), Fail> {
    let alloc = rt.alloc();
    let files = vec![in alloc;
        file(alloc, "Stack.Mod", b"first")?,
        file(alloc, "Stack.Mod", b"second")?,
        file(alloc, "Empty.Mod", b"")?,
    ]?;
    let mut shelf = MemShelf::new(files, vec![in alloc; 4]?);
    expect_fetch(
        &rt,
        alloc,
        &mut shelf,
        ("Stack.Mod", 5, Got::Text, b"first"),
    );
    expect_fetch(&rt, alloc, &mut shelf, ("Stack.Mod", 4, Got::TooLong, b""));
    expect_fetch(&rt, alloc, &mut shelf, ("Empty.Mod", 0, Got::Text, b""));
    expect_fetch(&rt, alloc, &mut shelf, ("Stack.Mod", 5, Got::Failed, b""));
    expect_fetch(&rt, alloc, &mut shelf, ("Queue.Mod", 5, Got::Absent, b""));
    Ok(())
}

#[test]
fn sink_in_memory(rt: HostRuntime) -> Result<(), Fail> {
    let alloc = rt.alloc();
    let mut sink = MemSink::new(alloc, vec![in alloc; (1, 2)]?, 6)?;
    expect_put(&rt, &mut sink, b"abc", Put::Failed);
    assert!(rt; sink.bytes() == b"ab".as_slice());
    expect_put(&rt, &mut sink, b"cdef", Put::Done);
    expect_put(&rt, &mut sink, b"g", Put::Failed);
    expect_put(&rt, &mut sink, b"", Put::Done);
    assert!(rt; sink.bytes() == b"abcdef".as_slice());
    expect_put(&rt, &mut NoFailSink::new(), b"abc", Put::Done);
    Ok(())
}

// Paths that every Linux has: an empty file, none, a folder, and one without an end.
#[test]
fn shelf_of_files(rt: HostRuntime) {
    let mut shelf = FileShelf::new(&rt);
    for (name, answer) in [
        ("/dev/null", Got::Text),
        ("/dev/null/none", Got::Failed),
        ("/none", Got::Absent),
        ("/", Got::Failed),
        ("/dev/zero", Got::TooLong),
    ] {
        expect_fetch(&rt, rt.alloc(), &mut shelf, (name, 10000, answer, b""));
    }
}

// Is interrupted once, takes two bytes at a time, and then fails.
#[derive(Drop)]
struct Slow {
    writes: u8,
}

impl Write for Slow {
    fn write(&mut self, buf: &[u8]) -> io::Result<usize> {
        self.writes = self.writes.saturating_add(1);
        match self.writes {
            1 => Err(io::Error::from(ErrorKind::Interrupted)),
            2 | 3 => Ok(buf.len().min(2)),
            _ => Err(io::Error::from(ErrorKind::BrokenPipe)),
        }
    }

    fn flush(&mut self) -> io::Result<()> {
        Ok(())
    }
}

#[test]
fn sink_over_a_stream(rt: HostRuntime) {
    let mut sink = StdSink::new(Slow { writes: 0 });
    expect_put(&rt, &mut sink, b"abcd", Put::Done);
    expect_put(&rt, &mut sink, b"", Put::Done);
    expect_put(&rt, &mut sink, b"e", Put::Failed);
    expect_put(&rt, &mut StdSink::new(rt.stdout()), b"", Put::Done);
    expect_put(&rt, &mut StdSink::new(rt.stderr()), b"", Put::Done);
}

//! Tables for the shelves, the sinks and whole files.

ghost use Rattle.std.specs.Prelude.{◌≤◌};

use at_io::{
    DiskShelf, MemShelf, MemSink, NamedFile, PutFail, ReadError, RepeatShelf, Shelf, Sink, StdSink,
    read_whole,
};
use at_text::{Bytes, Word};
use std::alloc::{AllocError, Global};
use std::fmt::Display;
use std::test::Fail;
use std::{env, fs, io};

/// A shelf with the one file `a.wkt` of so many bytes, which are the last digits of their offsets.
fn shelf_of(alloc: Global, length: u32, fails: &[u32], piece: u32) -> Result<MemShelf, AllocError>
    requires { 1 ≤ piece }
{
    let mut bytes = Vec::new(alloc);
    for at in 0..length {
        bytes.push((at % 10) as u8)?;
    }
    let file = NamedFile {
        name: Word::from_string(String::from_str(alloc, "a.wkt")?),
        bytes: Bytes::from_vec(bytes),
    };
    let mut files = Vec::new(alloc);
    files.push(file)?;
    Ok(MemShelf::new(files, Vec::from_slice(alloc, fails)?, piece))
}

/// Whether the bytes are the last digits of their offsets.
fn are_digits(bytes: &[u8]) -> bool {
    for at in 0..bytes.len() {
        if bytes[at] as usize != at % 10 {
            return false;
        }
    }
    true
}

/// Whether so many bytes were read, which are the last digits of their offsets, or the reading was refused so.
fn is_as_told(read: Result<Vec<u8>, ReadError>, expected: Result<usize, ReadError>) -> bool {
    match read {
        Ok(bytes) => expected == Ok(bytes.len()) && are_digits(bytes.as_slice()),
        Err(error) => expected == Err(error),
    }
}

/// The name, how many bytes `a.wkt` has, which calls fail, how many bytes a read gives, and the length that is
/// read or the refusal.
type Reading = (
    &'static str,
    u32,
    &'static [u32],
    u32,
    Result<usize, ReadError>,
);

const READINGS: [Reading; 12] = [
    ("a.wkt", 0, &[], 1, Ok(0)),
    ("a.wkt", 11, &[], 2, Ok(11)),
    ("a.wkt", 11, &[], 1 << 20, Ok(11)),
    ("a.wkt", 11, &[0], 2, Err(ReadError::Failed)),
    ("a.wkt", 11, &[2], 2, Err(ReadError::Failed)),
    ("a.wkt", 11, &[7], 2, Err(ReadError::Failed)),
    ("a.wkt", 11, &[8], 2, Ok(11)),
    ("b.wkt", 11, &[], 2, Err(ReadError::Failed)),
    ("", 11, &[], 2, Err(ReadError::Failed)),
    ("a.wkt", 100_000, &[3], 1 << 20, Err(ReadError::Failed)),
    ("a.wkt", 100_000, &[4], 1 << 20, Ok(100_000)),
    ("a.wkt", 65_536, &[3], 1 << 20, Ok(65_536)),
];

/// The number of the first row that isn't as it says.
fn first_wrong(alloc: Global, rows: &[Reading]) -> Result<Option<usize>, AllocError> {
    for row in 0..rows.len() {
        let (name, length, fails, piece, expected) = rows[row];
        let mut shelf = shelf_of(alloc, length, fails, piece.max(1))?;
        if !is_as_told(read_whole(alloc, &mut shelf, name), expected) {
            return Ok(Some(row));
        }
    }
    Ok(None)
}

/// Whole files. A call past the last one that is needed fails nothing, so the rows also say in how many turns a
/// file is read.
#[test]
fn whole_files(rt: HostRuntime) -> Result<(), Fail> {
    if let Some(row) = first_wrong(rt.alloc(), &READINGS)? {
        panic!(rt; "row {row}");
    }
    Ok(())
}

/// Whether all bytes are this one.
fn are_all(bytes: &[u8], byte: u8) -> bool {
    for another in bytes {
        if *another != byte {
            return false;
        }
    }
    true
}

/// Whether the whole file of that name is so many times this byte.
fn has_equal_bytes<S: Shelf>(
    alloc: Global,
    shelf: &mut S,
    name: &str,
    byte: u8,
    count: usize,
) -> bool {
    match read_whole(alloc, shelf, name) {
        Ok(bytes) => bytes.len() == count && are_all(bytes.as_slice(), byte),
        Err(_) => false,
    }
}

/// Whether the shelf has nothing to read.
fn has_nothing_left<S: Shelf>(shelf: &mut S) -> bool {
    let mut room = [0u8; 4];
    shelf.read(&mut room) == Ok(0)
}

/// Whether there is no file of that name.
fn is_refused<S: Shelf>(alloc: Global, shelf: &mut S, name: &str) -> bool {
    matches!(read_whole(alloc, shelf, name), Err(ReadError::Failed))
}

/// A file of equal bytes: whole in turns, in short reads to its end, again from its first byte, and by another name.
#[test]
fn equal_bytes(rt: HostRuntime) -> Result<(), Fail> {
    let name = String::from_str(rt.alloc(), "b.wkt")?;
    let mut shelf = RepeatShelf::new(name, b' ', 70_001);
    assert!(rt; has_nothing_left(&mut shelf), "nothing is begun");
    let whole = has_equal_bytes(rt.alloc(), &mut shelf, "b.wkt", b' ', 70_001);
    assert!(rt; whole, "the whole file");
    assert!(rt; has_nothing_left(&mut shelf), "nothing is left");
    assert!(rt; is_refused(rt.alloc(), &mut shelf, "b.wk"), "another name");
    assert!(rt; has_nothing_left(&mut shelf), "nothing is begun now");
    let mut room = [0u8; 4];
    assert!(rt; shelf.begin("b.wkt").is_ok());
    assert!(rt; shelf.read(&mut room[1..3]) == Ok(2));
    assert!(rt; room == [0, b' ', b' ', 0]);
    Ok(())
}

/// A file of as many bytes as a `u64` counts, of which a few are read.
#[test]
fn the_longest_file(rt: HostRuntime) -> Result<(), Fail> {
    let name = String::from_str(rt.alloc(), "")?;
    let mut shelf = RepeatShelf::new(name, 255, u64::MAX);
    let mut room = [0u8; 3];
    assert!(rt; shelf.begin("").is_ok());
    assert!(rt; shelf.read(&mut room) == Ok(3));
    assert!(rt; room == [255, 255, 255]);
    Ok(())
}

/// A piece, whether its put is done, and what is written after it.
type Put = (&'static [u8], bool, &'static [u8]);

const PUTS: [Put; 5] = [
    (b"a", true, b"a"),
    (b"bcd", false, b"abc"),
    (b"", true, b"abc"),
    (b"defg", false, b"abcde"),
    (b"h", false, b"abcde"),
];

/// The number of the first put that isn't as its row says.
fn first_wrong_put(sink: &mut MemSink, puts: &[Put]) -> Option<usize> {
    for row in 0..puts.len() {
        let (piece, done, written) = puts[row];
        if sink.put(piece).is_ok() != done || sink.written() != written {
            return Some(row);
        }
    }
    None
}

/// Puts into a sink with room for five bytes, whose put 1 keeps at most two.
#[test]
fn puts_in_memory(rt: HostRuntime) -> Result<(), Fail> {
    let mut fails = Vec::new(rt.alloc());
    fails.push(PutFail { call: 1, kept: 2 })?;
    let mut sink = MemSink::new(rt.alloc(), 5, fails)?;
    if let Some(row) = first_wrong_put(&mut sink, &PUTS) {
        panic!(rt; "put {row}");
    }
    Ok(())
}

/// Whether the whole file of that name is this text.
fn has_text<S: Shelf>(alloc: Global, shelf: &mut S, name: &str, text: &[u8]) -> bool {
    match read_whole(alloc, shelf, name) {
        Ok(bytes) => bytes.as_slice() == text,
        Err(_) => false,
    }
}

/// Writes a file, and tells whether it is read as it was written, and refused once it is gone.
fn reads_and_misses(rt: &HostRuntime, path: &str) -> Result<bool, io::Error> {
    fs::write(rt, path, "POINT (1 2)\n")?;
    let mut shelf = DiskShelf::new(rt);
    let unbegun = has_nothing_left(&mut shelf);
    let read = has_text(rt.alloc(), &mut shelf, path, b"POINT (1 2)\n");
    fs::remove_file(rt, path)?;
    Ok(unbegun && read && is_refused(rt.alloc(), &mut shelf, path))
}

/// A file, a directory and a name that isn't there, read from the disk.
#[test]
fn files_of_the_disk(rt: HostRuntime) -> Result<(), Fail> {
    let folder = env::temp_dir(&rt)?;
    let folder = folder.as_path().to_str().ok_or("a folder's name")?;
    let id = std::process::id(rt.process());
    let path = format!(in rt.alloc(); "{folder}/atgis_{id}.wkt")?;
    assert!(rt; reads_and_misses(&rt, path.as_str())?, "a file");
    let mut shelf = DiskShelf::new(&rt);
    assert!(rt; is_refused(rt.alloc(), &mut shelf, folder), "a folder");
    assert!(rt; is_refused(rt.alloc(), &mut shelf, ""), "no name");
    assert!(rt; shelf.begin("@in").is_ok(), "the standard input");
    Ok(())
}

/// A stream that refuses every write.
#[derive(Drop)]
struct Refusing;

impl Print for Refusing {
    fn print<D: Display + Drop>(&self, _value: D) -> io::Result<()> {
        Err(io::Error::from(io::ErrorKind::BrokenPipe))
    }

    fn println<D: Display + Drop>(&self, _value: D) -> io::Result<()> {
        Err(io::Error::from(io::ErrorKind::BrokenPipe))
    }

    fn write_all(&self, _bytes: &[u8]) -> io::Result<()> {
        Err(io::Error::from(io::ErrorKind::BrokenPipe))
    }
}

/// A put on the standard output, and on a stream that refuses it.
#[test]
fn streams_of_std(rt: HostRuntime) {
    let mut out = StdSink::new(rt.stdout());
    assert!(rt; out.put(b"a line of the test\n").is_ok());
    let mut refusing = StdSink::new(Refusing);
    assert!(rt; refusing.put(b"").is_ok());
    assert!(rt; refusing.put(b"a").is_err());
}

/// What the page of `at_io` shows.
#[test]
fn the_example_of_the_crate(rt: HostRuntime) -> Result<(), Fail> {
    let alloc = rt.alloc();
    let name = String::from_str(alloc, "blanks.wkt")?;
    let mut shelf = RepeatShelf::new(name, b' ', 3);
    let bytes = read_whole(alloc, &mut shelf, "blanks.wkt")?;
    let mut sink = MemSink::new(alloc, 5, Vec::new(alloc))?;
    sink.put(bytes.as_slice())?;
    assert!(rt; sink.written() == b"   ".as_slice());
    Ok(())
}

//! A table of files behind a filter.

ghost use Rattle.std.specs.Prelude.{◌≤◌};

use at_filter::{Filter, FilteredShelf};
use at_io::{MemShelf, NamedFile, RepeatShelf, read_whole};
use at_text::{Bytes, Word};
use std::alloc::Global;
use std::test::Fail;

/// A shelf with the one file `p`, whose reads give so many bytes.
fn shelf_of(alloc: Global, file: &[u8], piece: u32) -> Result<MemShelf, Fail>
    requires { 1 ≤ piece }
{
    let file = NamedFile {
        name: Word::from_string(String::from_str(alloc, "p")?),
        bytes: Bytes::from_vec(Vec::from_slice(alloc, file)?),
    };
    let mut files = Vec::new(alloc);
    files.push(file)?;
    Ok(MemShelf::new(files, Vec::new(alloc), piece))
}

/// A filter, the bytes of a file, and what they are behind it.
type Filtering = (Filter, &'static [u8], &'static [u8]);

const FILTERINGS: [Filtering; 12] = [
    (Filter::Lines, b"", b""),
    (
        Filter::Lines,
        b"\n{}\n\n[\"]}\"]\r\n",
        b"\x1e{}\x1e\x1e[\"]}\"]\r\x1e",
    ),
    (Filter::Lines, b"\x1e\n\x1e", b"\x01\x1e\x01"),
    (Filter::Items, b"", b""),
    (Filter::Items, b"{}],\"a\":[{}", b"{}],\x01a\":[{}"),
    (
        Filter::Items,
        b"} ]\n,\t\" } \r ] , \"\"",
        b"} ]\n,\t\x01 } \r ] , \x01\"",
    ),
    (Filter::Items, b"}]}],\"", b"}]}],\x01"),
    (
        Filter::Items,
        b"}},]],\"}],{}],[]],\"",
        b"}},]],\"}],{}],[]],\"",
    ),
    (
        Filter::Items,
        b"}] x,\"}x],\"}],x\"",
        b"}] x,\"}x],\"}],x\"",
    ),
    (Filter::Items, b"],\",\"]\"", b"],\",\"]\""),
    (Filter::Items, b"\x1e\n\x01", b"\x1e\n\x01"),
    (Filter::Items, b"}],\"}],\"", b"}],\x01}],\x01"),
];

/// Files behind a filter, however many bytes a read gives.
#[test]
fn filtered_files(rt: HostRuntime) -> Result<(), Fail> {
    for (filter, file, expected) in &FILTERINGS {
        for piece in 1..7u32 {
            let shelf = shelf_of(rt.alloc(), file, piece.max(1))?;
            let mut shelf = FilteredShelf::new(shelf, *filter);
            for _ in 0..2 {
                let read = read_whole(rt.alloc(), &mut shelf, "p")
                    .ok()
                    .ok_or("it is read")?;
                assert_eq!(rt; read.as_slice(), *expected, "{filter:?} by {piece}");
            }
        }
    }
    Ok(())
}

/// What the page of `at_filter` shows.
#[test]
fn the_example_of_the_crate(rt: HostRuntime) -> Result<(), Fail> {
    let alloc = rt.alloc();
    let name = String::from_str(alloc, "feeds")?;
    let mut shelf = FilteredShelf::new(RepeatShelf::new(name, b'\n', 3), Filter::Lines);
    let bytes = read_whole(alloc, &mut shelf, "feeds")?;
    assert!(rt; bytes.as_slice() == b"\x1E\x1E\x1E".as_slice());
    Ok(())
}

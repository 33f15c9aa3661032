//! Files that are fetched.

use ng_outside::{FetchError, HostShelf, MemShelf, Shelf, SureShelf};
use std::alloc::{AllocError, Global};
use std::fs;
use std::io::{self, Read};
use std::test::Fail;

fn files(alloc: Global) -> Result<Vec<(String, Vec<u8>)>, AllocError> {
    let mut files = Vec::new(alloc);
    for (name, text) in [("app", "hello"), ("app", "later")] {
        let bytes = Vec::from_slice(alloc, text.as_bytes())?;
        files.push((String::from_str(alloc, name)?, bytes))?;
    }
    Ok(files)
}

// How many bytes a shelf gives.
fn fetched<H: Shelf>(
    alloc: Global,
    shelf: &mut H,
    name: &str,
    limit: usize,
) -> Result<usize, FetchError> {
    let bytes = shelf.fetch(alloc, name, limit)?;
    Ok(bytes.len())
}

#[test]
fn of_a_shelf_that_never_fails(rt: HostRuntime) -> Result<(), Fail> {
    let alloc = rt.alloc();
    let mut shelf = SureShelf::new(files(alloc)?);
    for (name, limit, want) in [
        ("app", 5, Ok(5)),
        ("app", 4, Err(FetchError::TooLong)),
        ("missing", 0, Ok(0)),
    ] {
        assert_eq!(rt; fetched(alloc, &mut shelf, name, limit), want, "{name}");
    }
    Ok(())
}

#[test]
fn of_a_shelf_whose_second_call_fails(rt: HostRuntime) -> Result<(), Fail> {
    let alloc = rt.alloc();
    let mut shelf = MemShelf::new(files(alloc)?, vec![in alloc; 2u32]?);
    for (name, want) in [
        ("app", Ok(5)),
        ("app", Err(FetchError::Failed)),
        ("missing", Err(FetchError::Failed)),
    ] {
        assert_eq!(rt; fetched(alloc, &mut shelf, name, 5), want, "{name}");
    }
    Ok(())
}

#[test]
fn of_the_machine(rt: HostRuntime) -> Result<(), Fail> {
    let alloc = rt.alloc();
    let mut shelf = HostShelf::new(&rt);
    fs::write(&rt, "test_program.txt", "hello")?;
    for (name, limit, want) in [
        ("test_program.txt", 5, Ok(5)),
        ("test_program.txt", 4, Err(FetchError::TooLong)),
        ("test_program_missing.txt", 5, Err(FetchError::Failed)),
        (".", 5, Err(FetchError::Failed)),
        ("a\0b", 5, Err(FetchError::Failed)),
    ] {
        assert_eq!(rt; fetched(alloc, &mut shelf, name, limit), want, "{name}");
    }
    fs::remove_file(&rt, "test_program.txt")?;
    Ok(())
}

// A file whose reads fail.
#[derive(Drop)]
struct Broken;

impl Read for Broken {
    fn read(&mut self, _buf: &mut [u8]) -> io::Result<usize> {
        Err(io::Error::from(io::ErrorKind::TimedOut))
    }
}

#[test]
fn a_read_fails_after_some_bytes(rt: HostRuntime) -> Result<(), Fail> {
    let alloc = rt.alloc();
    let mut shelf = HostShelf::new(&rt);
    let mut file = b"hello".as_slice().chain(Broken);
    let refused = shelf.read_within(alloc, &mut file, 9);
    assert_eq!(rt; refused.err(), Some(FetchError::Failed));
    Ok(())
}

#[test]
fn a_file_is_read_in_pieces(rt: HostRuntime) -> Result<(), Fail> {
    let alloc = rt.alloc();
    let mut shelf = HostShelf::new(&rt);
    let zeros = vec![in alloc; 0u8; 20_000]?;
    let mut file = zeros.as_slice();
    assert_eq!(rt; shelf.read_within(alloc, &mut file, 20_000)?.len(), 20_000);
    let mut file = zeros.as_slice();
    let refused = shelf.read_within(alloc, &mut file, 19_999);
    assert_eq!(rt; refused.err(), Some(FetchError::TooLong));
    Ok(())
}

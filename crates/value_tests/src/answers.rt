//! The limits of an answer, which a launcher has to keep.

use std::alloc::Global;
use std::test::Fail;
use wdl_value::{Answer, Body, Items, Seen, Text};

fn file_of(alloc: Global, name: &str, bytes: usize) -> Result<Seen, Fail> {
    let body = Body::Bytes(Items::from_slice(alloc, b"x".repeat(alloc, bytes)?.as_slice())?);
    Ok(Seen {
        name: Text::new(alloc, name)?,
        body,
    })
}

/// The file that `NAME SIZE` stands for. The name `*N` has so many bytes.
fn file(alloc: Global, text: &str) -> Result<Seen, Fail> {
    let (name, size) = text.split_once(' ').ok_or("a size")?;
    let size = size.parse::<usize>()?;
    match name.strip_prefix('*') {
        Some(length) => {
            let name = "n".repeat(alloc, length.parse::<usize>()?)?;
            file_of(alloc, name.as_str(), size)
        }
        None => file_of(alloc, name, size),
    }
}

/// Whether an answer may have the files between commas.
fn takes(alloc: Global, line: &str) -> Result<bool, Fail> {
    let mut files = Items::new(alloc);
    for text in line.split(',') {
        files.push(file(alloc, text)?)?;
    }
    Ok(Answer::new(0, Body::Long, Body::Long, files).is_ok())
}

/// Whether an answer may have a file for each number from 100,000 up to this one, with so many bytes
/// of name behind the number.
fn takes_files(alloc: Global, end: u32, more: usize) -> Result<bool, Fail> {
    let rest = "n".repeat(alloc, more)?;
    let mut files = Items::new(alloc);
    for number in 100_000..end {
        let mut name = number.to_string(alloc)?;
        name.push_str(rest.as_str())?;
        files.push(file_of(alloc, name.as_str(), 1)?)?;
    }
    Ok(Answer::new(0, Body::Long, Body::Long, files).is_ok())
}

/// The files of an answer between bars, and whether an answer may have them: the names rise by their
/// bytes, begin in the directory and have at most 1,024 bytes, a body has at most 1,048,576, and all
/// have at most 2,097,152.
const CASES: &str = "\
a 1,b/c.txt 1=yes|_stdout 1,zz 1=no|_stderr 1,zz 1=no|/x 1,zz 1=no| 1,zz 1=no|a 1,a 1=no|\
b 1,a 1=no|0 1048577=no|0 1048576,1 1048574=yes|0 1048576,1 1048575=no|\
a 1,*1024 1=yes|a 1,*1025 1=no";

/// The first case that is answered otherwise, or nothing.
fn first_other<'a>(alloc: Global, cases: &'a str) -> Result<&'a str, Fail> {
    for case in cases.split('|') {
        let (line, expected) = case.split_once('=').ok_or("an answer")?;
        if takes(alloc, line)? != (expected == "yes") {
            return Ok(case);
        }
    }
    Ok("")
}

#[test]
fn answers_keep_their_limits(rt: HostRuntime) -> Result<(), Fail> {
    let alloc = rt.alloc();
    assert_eq!(rt; first_other(alloc, CASES)?, "");
    Ok(())
}

#[test]
fn answers_have_so_many_files(rt: HostRuntime) -> Result<(), Fail> {
    let alloc = rt.alloc();
    assert!(rt; takes_files(alloc, 165_536, 0)?);
    assert!(rt; !takes_files(alloc, 165_537, 0)?);
    Ok(())
}

#[test]
fn the_names_of_an_answer_are_limited(rt: HostRuntime) -> Result<(), Fail> {
    let alloc = rt.alloc();
    assert!(rt; takes_files(alloc, 101_024, 1_018)?);
    assert!(rt; !takes_files(alloc, 101_025, 1_018)?);
    Ok(())
}

//! The limits and the names of written files, each met exactly.

use std::alloc::Global;
use std::test::Fail;
use wdl_files::{WrittenFault, written_name, written_text};
use wdl_value::{Func, Items, Text, Value};

/// Whether so many texts of so many bytes are too large for a file of lines.
fn are_too_large(alloc: Global, count: u32, bytes: usize) -> Result<bool, Fail> {
    let text = "a".repeat(alloc, bytes)?;
    let mut items = Items::new(alloc);
    for _ in 0..count {
        items.push(Value::Str(Text::new(alloc, text.as_str())?))?;
    }
    match written_text(alloc, Func::WriteLines, &Value::List(items)) {
        Err(fault) => Ok(fault == WrittenFault::TooLarge),
        Ok(_) => Ok(false),
    }
}

#[test]
fn long_texts_are_refused(rt: HostRuntime) -> Result<(), Fail> {
    let alloc = rt.alloc();
    assert!(rt; !are_too_large(alloc, 1, 65_536)?);
    assert!(rt; are_too_large(alloc, 1, 65_537)?);
    Ok(())
}

#[test]
fn long_files_are_refused(rt: HostRuntime) -> Result<(), Fail> {
    let alloc = rt.alloc();
    assert!(rt; !are_too_large(alloc, 64, 65_535)?);
    assert!(rt; are_too_large(alloc, 65, 65_535)?);
    Ok(())
}

#[test]
fn the_last_name_of_a_written_file(rt: HostRuntime) -> Result<(), Fail> {
    let name = written_name(rt.alloc(), u32::MAX)?;
    assert_eq!(rt; name.as_str(), ".written-4294967295");
    Ok(())
}

//! What a person is told of a document that is no text.

use std::sync::Wait;
use std::test::Fail;
use std::thread::Threads;
use std::time::Clock;
use workflow_cases::{read_case, shown};

/// What is seen of the check of a document.
fn seen<R: Threads + Wait + Clock + Sync + AllocGlobal>(
    rt: &R,
    document: &[u8],
) -> Result<String, Fail> {
    let alloc = rt.alloc();
    let mut case = read_case(alloc, "$ check w.wdl\nnotes 10000")?;
    case.add_file(alloc, "w.wdl", document)?;
    shown(rt, alloc, case)
}

#[test]
fn a_byte_that_is_not_utf8_is_one_character(rt: HostRuntime) -> Result<(), Fail> {
    let seen = seen(&rt, b"version 1.1\na\n\x1b\xff b")?;
    assert_eq!(rt;
        seen.as_str(),
        "3 0\n! w.wdl:15..16: 101 NotUtf8\n\
         # w.wdl:3:2: error 101 NotUtf8: this byte is not UTF-8: save the document as UTF-8\n\
         # \u{FFFD}\u{FFFD} b\n#  ^\n"
    );
    Ok(())
}

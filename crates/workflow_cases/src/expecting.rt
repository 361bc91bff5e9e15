use crate::files::push_times;
use crate::reading::read_case;
use crate::showing::shown;
use std::alloc::Global;
use std::sync::Wait;
use std::test::Fail;
use std::thread::Threads;
use std::time::Clock;

/// `> LINE`, `>. TEXT` without a newline, or `>* NUMBER PIECE`.
fn push_line(expected: &mut String, line: &str) -> Result<(), Fail> {
    let (word, rest) = line.split_once(' ').unwrap_or((line, ""));
    match word {
        ">" => {
            expected.push_str(rest)?;
            expected.push_str("\n")?;
        }
        ">." => expected.push_str(rest)?,
        ">*" => push_times(expected, rest)?,
        _ => {}
    }
    Ok(())
}

/// What is to be seen of a case.
fn expected(alloc: Global, lines: &str) -> Result<String, Fail> {
    let mut expected = String::new(alloc);
    for line in lines.split('\n') {
        push_line(&mut expected, line)?;
    }
    Ok(expected)
}

/// What is wrong with a case, if anything is.
fn mistake<R: Threads + Wait + Clock + Sync>(
    rt: &R,
    alloc: Global,
    lines: &str,
) -> Result<Option<String>, Fail> {
    let expected = expected(alloc, lines)?;
    let seen = shown(rt, alloc, read_case(alloc, lines)?)?;
    if seen.as_str() == expected.as_str() {
        return Ok(None);
    }
    Ok(Some(format!(in alloc; "{lines}\nbut {}", seen.as_str())?))
}

/// The first of the cases, which empty lines part, whose call shows anything else than what stands
/// behind `>`; with what it shows.
pub fn first_mistake<R: Threads + Wait + Clock + Sync>(
    rt: &R,
    alloc: Global,
    cases: &str,
) -> Result<String, Fail> {
    for case in cases.split("\n\n") {
        if let Some(mistake) = mistake(rt, alloc, case)? {
            return Ok(mistake);
        }
    }
    Ok(String::new(alloc))
}

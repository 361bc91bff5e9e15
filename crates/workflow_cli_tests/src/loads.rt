use crate::left::wrote;
use std::alloc::Global;
use std::test::Fail;
use workflow_cases::{first_mistake, read_case, run_case};

/// Loads of one call: on a shelf without a file, where each read would fail and each launch be
/// refused; and with an output that takes nothing, or a front of the line.
const ONE_CALL: &str = r#"lost 1
refuse c0
$ load 1
> 0 1 +c0 -c0
> calls 1 jobs 1 last 2
> /tmp/wdl-run/c0 echo $(( (1 + 1) % 1000 ))

$ load 1
room 0 100
> 6 1 +c0 -c0
> ! cannot write
> /tmp/wdl-run/c0 echo $(( (1 + 1) % 1000 ))

$ load 1
room 5 100
> 6 1 +c0 -c0
>. calls
> ! cannot write
> /tmp/wdl-run/c0 echo $(( (1 + 1) % 1000 ))"#;

/// Loads of more calls, with their lines.
const MORE_CALLS: &str = "load 2|calls 2 jobs 2 last 3
load 5|calls 5 jobs 5 last 7
load 10|calls 10 jobs 10 last 16
load 200|calls 200 jobs 200 last 391";

#[test]
fn a_load_of_one_call_is_seen_whole(rt: HostRuntime) -> Result<(), Fail> {
    assert_eq!(rt; first_mistake(&rt, rt.alloc(), ONE_CALL)?.as_str(), "");
    Ok(())
}

#[test]
fn a_load_writes_its_line(rt: HostRuntime) -> Result<(), Fail> {
    let alloc: Global = rt.alloc();
    for line in MORE_CALLS.lines() {
        let (words, written) = line.split_once('|').unwrap_or((line, ""));
        let case = format!(in alloc; "$ {words}")?;
        let expected = format!(in alloc; "{written}\n")?;
        let outcome = run_case(&rt, alloc, read_case(alloc, case.as_str())?)?;
        assert!(rt; wrote(&outcome, expected.as_str(), ""), "{words}");
    }
    Ok(())
}

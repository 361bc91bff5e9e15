use crate::lanes::{LANES, case_of, places};
use crate::left::{ends, is_idle, wrote};
use std::sync::Wait;
use std::test::Fail;
use std::thread::Threads;
use std::time::Clock;
use workflow_cases::{Outcome, run_case};

/// The run of a document over four samples, with these lines of a case more.
fn run<R: Threads + Wait + Clock + Sync + AllocGlobal>(
    rt: &R,
    document: &[u8],
    more: &str,
) -> Result<Outcome, Fail> {
    let alloc = rt.alloc();
    run_case(rt, alloc, case_of(alloc, document, more)?)
}

#[test]
fn a_read_that_fails_has_status_5(rt: HostRuntime) -> Result<(), Fail> {
    for (more, line) in [
        ("lost 1", "cannot read lanes.wdl\n"),
        ("lost 2", "cannot read i.json\n"),
    ] {
        let outcome = run(&rt, LANES.as_bytes(), more)?;
        assert!(rt; is_idle(&outcome, 5) && wrote(&outcome, "", line), "{more}");
    }
    Ok(())
}

#[test]
fn a_write_that_fails_has_status_6(rt: HostRuntime) -> Result<(), Fail> {
    for (more, written) in [("room 0 100", ""), ("room 10 100", "{\"lanes.by")] {
        let outcome = run(&rt, LANES.as_bytes(), more)?;
        assert_eq!(rt; ends(&outcome), (6, 40, 40, 40), "{more}");
        assert!(rt; wrote(&outcome, written, "cannot write\n"), "{more}");
    }
    let outcome = run(&rt, b"version 1.1\n{", "room 100 0")?;
    assert!(rt; is_idle(&outcome, 6) && wrote(&outcome, "", ""));
    Ok(())
}

#[test]
fn a_keeper_that_fails_has_status_10(rt: HostRuntime) -> Result<(), Fail> {
    let alloc = rt.alloc();
    for call in 1..43_u8 {
        let answered = call.saturating_sub(2);
        let kept = call.saturating_sub(3);
        let more = format!(in alloc; "unkept {call}")?;
        let outcome = run(&rt, LANES.as_bytes(), more.as_str())?;
        let left = (
            10,
            u64::from(answered),
            usize::from(answered),
            usize::from(kept),
        );
        assert_eq!(rt; ends(&outcome), left, "{call}");
        assert!(rt; wrote(&outcome, "", "journal fault\n"), "{call}");
    }
    Ok(())
}

/// How many jobs a run launches up to the job of this place, which is refused and has status 9;
/// nothing where it leaves anything else.
fn launches_to<R: Threads + Wait + Clock + Sync + AllocGlobal>(
    rt: &R,
    place: &str,
) -> Result<Option<u64>, Fail> {
    let alloc = rt.alloc();
    let more = format!(in alloc; "refuse {place}")?;
    let line = format!(in alloc; "cannot launch {place}\n")?;
    let outcome = run(rt, LANES.as_bytes(), more.as_str())?;
    let (status, launched, answered, kept) = ends(&outcome);
    let is_last = launched == (answered as u64).saturating_add(1);
    let is_right = status == 9 && is_last && kept == answered && wrote(&outcome, "", line.as_str());
    Ok(is_right.then_some(launched))
}

#[test]
fn a_job_that_is_refused_has_status_9(rt: HostRuntime) -> Result<(), Fail> {
    let mut turns = Vec::new(rt.alloc());
    let places = places(rt.alloc())?;
    for place in places.as_str().lines() {
        let launched = launches_to(&rt, place)?;
        assert!(rt; launched.is_some(), "{place}");
        turns.push(launched)?;
    }
    // Each job has a turn of its own.
    for turn in 1..41 {
        assert!(rt; turns.contains(&Some(turn)), "{turn}");
    }
    Ok(())
}

#[test]
fn a_front_of_the_document_has_status_3(rt: HostRuntime) -> Result<(), Fail> {
    let whole = LANES.strip_suffix('\n').unwrap_or("").as_bytes();
    for length in 0..whole.len() {
        let outcome = run(&rt, &whole[..length], "")?;
        assert!(rt; is_idle(&outcome, 3), "{length}");
        assert!(rt;
            outcome.sinks.out.bytes.is_empty() && !outcome.sinks.err.bytes.is_empty(),
            "{length}"
        );
    }
    Ok(())
}

use std::sync::Wait;
use std::test::Fail;
use std::thread::Threads;
use std::time::Clock;
use workflow_cases::first_mistake;

/// Words without a reading.
const UNREADABLE: &str = "\
    |run|walk w.wdl|run --workers 0 w.wdl|run --workers 65 w.wdl|run --root tmp w.wdl|\
    run w.wdl w.wdl|run --inputs w.wdl|check|inputs|inputs w.wdl w.wdl|help w.wdl|help version|\
    run --help w.wdl|cwl|cwl --inputs w.wdl|cwl --root /a w.wdl|load 0|load 10001|\
    bundle|bundle w.wdl w.wdl|run --root /a --root /b w.wdl";

/// What is wrong with the first of these words, between bars, of which the call shows anything
/// else.
fn first_wrong<R: Threads + Wait + Clock + Sync + AllocGlobal>(
    rt: &R,
    all: &str,
    expected: &str,
) -> Result<String, Fail> {
    let alloc = rt.alloc();
    for words in all.split('|') {
        let case = format!(in alloc;
            "version workflow w {{ }}\nfile w.wdl\n$ {words}\n{expected}"
        )?;
        let mistake = first_mistake(rt, alloc, case.as_str())?;
        if !mistake.is_empty() {
            return Ok(mistake);
        }
    }
    Ok(String::new(alloc))
}

#[test]
fn words_without_a_reading_have_status_2(rt: HostRuntime) -> Result<(), Fail> {
    let expected = "> 2 0\n> ! usage: wdl run [--inputs FILE] [--workers N] [--root DIR] \
                    [--journal FILE] FILE | check FILE | inputs FILE \
                    | cwl [--inputs FILE] FILE | load N | bundle FILE";
    assert_eq!(rt; first_wrong(&rt, UNREADABLE, expected)?.as_str(), "");
    Ok(())
}

#[test]
fn the_version_is_printed(rt: HostRuntime) -> Result<(), Fail> {
    let words = "version|--version|-V";
    assert_eq!(rt; first_wrong(&rt, words, "> 0 0\n> wdl 1.0.0")?.as_str(), "");
    Ok(())
}

#[test]
fn a_run_has_1_to_64_workers_and_may_keep_its_journal(rt: HostRuntime) -> Result<(), Fail> {
    let words = "run w.wdl|run --workers 1 w.wdl|run --workers 64 w.wdl|run --journal j w.wdl";
    assert_eq!(rt; first_wrong(&rt, words, "> 0 0\n> {}")?.as_str(), "");
    Ok(())
}

/// Lines that are cut.
const CUT: &str = "version workflow w { }
file w.wdl
$ check w.wdl
room 2 100
> 6 0
>. ok
> ! cannot write

version workflow w { }
file w.wdl
$ check w.wdl
room 0 9
> 6 0
>. ! cannot wr

$ version
room 3 100
> 6 0
>. wdl
> ! cannot write

$ walk
room 100 5
> 6 0
>. ! usage

version workflow w { Int x = y }
file w.wdl
$ run w.wdl
room 100 0
> 6 0

version workflow w { }
file w.wdl
$ inputs w.wdl
room 1 100
> 6 0
>. {
> ! cannot write

version workflow w { }
file w.wdl
$ bundle w.wdl
room 7 100
> 6 0
>. version
> ! cannot write";

#[test]
fn what_is_cut_has_status_6(rt: HostRuntime) -> Result<(), Fail> {
    assert_eq!(rt; first_mistake(&rt, rt.alloc(), CUT)?.as_str(), "");
    Ok(())
}

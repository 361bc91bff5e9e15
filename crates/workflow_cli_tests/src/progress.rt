use std::test::Fail;
use workflow_cases::first_mistake;

/// What a person is told of runs.
const RUNS: &str = r#"say
text workflow w { call say { input: s = "hi" } output { String r = say.r } }
file w.wdl
answer say 0 0 hi
$ run --workers 1 w.wdl
notes 10000
> 0 1 +say -say
> {"w.r":"hi"}
> /tmp/wdl-run/say echo hi
> # [0 done, 1 running] say: started
> # [1 done, 0 running] say: status 0
> # 1 job done, 0 failed
> # the files of each job are below /tmp/wdl-run; the next run without --root empties these directories

say
text workflow w { call say { input: s = "hi" } output { String r = say.r } }
file w.wdl
answer say 0 3 hi
$ run --workers 1 w.wdl
notes 10000
> 1 1 +say -say stop
> ! failed say: status 3
> /tmp/wdl-run/say echo hi
> # [0 done, 1 running] say: started
> # [0 done, 1 failed, 0 running] say: status 3
> # say: the command ended with status 3
> #   command:
> #     echo hi
> #   standard error is empty
> #   standard output: /tmp/wdl-run/say/_stdout
> #   standard error: /tmp/wdl-run/say/_stderr
> # 0 jobs done, 1 failed
> # the files of each job are below /tmp/wdl-run; the next run without --root empties these directories"#;

#[test]
fn a_person_sees_a_run_and_its_failed_job(rt: HostRuntime) -> Result<(), Fail> {
    assert_eq!(rt; first_mistake(&rt, rt.alloc(), RUNS)?.as_str(), "");
    Ok(())
}

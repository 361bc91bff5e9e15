use std::test::Fail;
use workflow_cases::first_mistake;

/// The documents of a bundle and the bundle have the same jobs and outputs.
const RUNS: &str =
    r#"version task copy { input { File f } command <<<cat ~{f} > out.txt>>> output { File o = "out.txt" } }
file part.wdl
version import "part.wdl"
line workflow w { input { File f } call part.copy { input: f } output { File o = copy.o } }
file w.wdl
inputs {"w.f":"/f"}
left out.txt a
answer copy 0 0 x
$ run --inputs i.json w.wdl
> 0 1 +copy -copy
> {"w.o":"/tmp/wdl-run/copy/out.txt"}
> /tmp/wdl-run/copy cat /f > out.txt

version task task_1_0 {
line input {
line File f }
line command <<<cat ~{ f } > out.txt>>>
line output {
line File o = "out.txt" }
line }
line workflow w {
line input {
line File f }
line call task_1_0 as copy {
line input : f }
line output {
line File o = copy . o }
line }
file w.wdl
inputs {"w.f":"/f"}
left out.txt a
answer copy 0 0 x
$ run --inputs i.json w.wdl
> 0 1 +copy -copy
> {"w.o":"/tmp/wdl-run/copy/out.txt"}
> /tmp/wdl-run/copy cat /f > out.txt"#;

#[test]
fn a_bundle_runs_as_its_documents_do(rt: HostRuntime) -> Result<(), Fail> {
    assert_eq!(rt; first_mistake(&rt, rt.alloc(), RUNS)?.as_str(), "");
    Ok(())
}

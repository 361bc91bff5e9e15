use std::alloc::Global;
use std::test::Fail;
use workflow_cases::{Case, read_case, shown};

/// A document of scatters in one another.
pub const LANES: &str = r##"version 1.1
# counts lines by lane
struct Sample {
  String id
  Array[File]+ lanes
  Int? cap
}
task count {
  input {
    File lane
    Int cap = 100
    String? tag
  }
  command <<<
    wc -l < ~{lane} | head -n ~{cap} ~{"# " + tag}
  >>>
  output { Int n = read_int(stdout()) }
  runtime {
    docker: "ubuntu:22.04"
    memory: "2 GB"
    cpu: 1
  }
  meta { version: 1.5 author: "lab" }
}
task total {
  input { Array[Int]+ ns }
  command <<<
    echo $(( ~{sep=" + " ns} ))
  >>>
  output { Int t = read_int(stdout()) }
}
workflow lanes {
  input { Array[Sample] samples }
  scatter (s in samples) {
    String sid = s.id
    scatter (f in s.lanes) {
      call count { input: lane = f, cap = select_first([s.cap, 100]), tag = s.id }
    }
    call total { input: ns = count.n }
  }
  output {
    Array[Int] totals = total.t
    Map[String, Int] by_id = as_map(zip(sid, total.t))
  }
}
"##;

/// Four samples of nine lanes each.
fn inputs(alloc: Global) -> Result<String, Fail> {
    let mut text = String::from_str(alloc, "{\"lanes.samples\":[")?;
    for (comma, sample) in [("", "a"), (",", "b"), (",", "c"), (",", "d")] {
        let head = format!(in alloc;
            "{comma}{{\"id\":\"{sample}\",\"lanes\":[\"/data/{sample}1.txt\""
        )?;
        text.push_str(head.as_str())?;
        for lane in 2..10 {
            text.push_str(format!(in alloc; ",\"/data/{sample}{lane}.txt\"")?.as_str())?;
        }
        text.push_str("]}")?;
    }
    text.push_str("]}")?;
    Ok(text)
}

/// The places of the 40 jobs, each with a newline.
pub fn places(alloc: Global) -> Result<String, Fail> {
    let mut places = String::new(alloc);
    for sample in 0..4 {
        for lane in 0..9 {
            let place = format!(in alloc; "scatter-0/{sample}/scatter-0/{lane}/count\n")?;
            places.push_str(place.as_str())?;
        }
        let place = format!(in alloc; "scatter-0/{sample}/total\n")?;
        places.push_str(place.as_str())?;
    }
    Ok(places)
}

/// The answers of the 40 jobs: each lane has 2 lines, and each sample 18.
fn answers(alloc: Global) -> Result<String, Fail> {
    let mut lines = String::new(alloc);
    let places = places(alloc)?;
    for place in places.as_str().lines() {
        let said = if place.ends_with("total") { 18 } else { 2 };
        let line = format!(in alloc; "answer {place} 0 0 {said}\n")?;
        lines.push_str(line.as_str())?;
    }
    Ok(lines)
}

/// The run of a document over four samples, which keeps a journal, with more lines of a case.
pub fn case_of(alloc: Global, document: &[u8], more: &str) -> Result<Case, Fail> {
    let answers = answers(alloc)?;
    let inputs = inputs(alloc)?;
    let words = "$ run --inputs i.json --workers 1 --journal j lanes.wdl";
    let lines = format!(in alloc; "{}{words}\n{more}", answers.as_str())?;
    let mut case = read_case(alloc, lines.as_str())?;
    case.add_file(alloc, "lanes.wdl", document)?;
    case.add_file(alloc, "i.json", inputs.as_bytes())?;
    Ok(case)
}

/// What is seen of a run but for its first line begins so.
const WRITTEN: &str = "\
    {\"lanes.by_id\":{\"a\":18,\"b\":18,\"c\":18,\"d\":18},\"lanes.totals\":[18,18,18,18]}\n\
    /tmp/wdl-run/scatter-0/0/scatter-0/0/count wc -l < /data/a1.txt | head -n 100 # a\n";

#[test]
fn forty_jobs_give_the_totals(rt: HostRuntime) -> Result<(), Fail> {
    let alloc = rt.alloc();
    for document in [LANES, LANES.strip_suffix('\n').unwrap_or("")] {
        let seen = shown(&rt, alloc, case_of(alloc, document.as_bytes(), "")?)?;
        let (numbers, rest) = seen.as_str().split_once('\n').unwrap_or(("", ""));
        assert!(rt; numbers.starts_with("0 40 "));
        assert!(rt; rest.starts_with(WRITTEN));
    }
    Ok(())
}

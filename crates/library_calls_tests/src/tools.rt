use cwl_emit::process_text;
use cwl_model::Process;
use cwl_subset::{Subset, in_subset};
use library_calls::tool_of;
use std::alloc::Global;
use std::test::Fail;
use wdl_check_doc::check;
use wdl_imports::gather;
use wdl_library::Library;
use wdl_port::{MemoryShelf, PathFile};
use wdl_typed::Checked;
use wdl_value::{Items, Text};

const DOCUMENT: &str = r#"version 1.1
task greet {
  input { Int n = 3 File f }
  command <<<head -n ~{n} ~{f} > out.txt>>>
  output { File o = "out.txt" }
}
workflow w { input { File f } call greet { input: f } output { File o = greet.o } }
"#;

const TOOL: &str =
    r#"{"arguments":["head -n $(inputs.n) $(inputs.f.path) > out.txt"],"baseCommand":["sh","-c"],"class":"CommandLineTool","cwlVersion":"v1.2","inputs":[{"default":3,"id":"n","type":"long"},{"id":"f","type":"File"}],"outputs":[{"id":"o","outputBinding":{"glob":"out.txt"},"type":"File"}],"stdout":"_stdout"}"#;

fn shelf_of(alloc: Global, document: &str) -> Result<MemoryShelf, Fail> {
    let path = Text::new(alloc, "w.wdl")?;
    let bytes = Items::from_slice(alloc, document.as_bytes())?;
    let mut files = Items::new(alloc);
    files.push(PathFile { path, bytes })?;
    Ok(MemoryShelf::new(files, Items::new(alloc)))
}

fn tool_text(alloc: Global, subset: &Subset) -> Result<Text, Fail> {
    if subset.checked().tasks.len() == 0 {
        return Ok(Text::new(alloc, "no task")?);
    }
    let tool = Process::Tool(tool_of(alloc, subset, 0)?);
    Ok(process_text(alloc, &tool)?)
}

fn of_form(alloc: Global, form: Checked) -> Result<Text, Fail> {
    if form.main.is_none() {
        return Ok(Text::new(alloc, "no workflow")?);
    }
    match in_subset(alloc, form) {
        Ok(subset) => tool_text(alloc, &subset),
        Err(_) => Ok(Text::new(alloc, "not in the subset")?),
    }
}

fn of_library(alloc: Global, library: &Library) -> Result<Text, Fail> {
    match check(alloc, library) {
        Ok(form) => of_form(alloc, form),
        Err(_) => Ok(Text::new(alloc, "refused")?),
    }
}

/// The tool of the first task of a document, as a document of its own.
fn first_tool(alloc: Global, document: &str) -> Result<Text, Fail> {
    let mut shelf = shelf_of(alloc, document)?;
    match gather(alloc, &mut shelf, &Text::new(alloc, "w.wdl")?) {
        Ok(library) => of_library(alloc, &library),
        Err(_) => Ok(Text::new(alloc, "not read")?),
    }
}

#[test]
fn a_task_has_a_tool_that_stands_alone(rt: HostRuntime) -> Result<(), Fail> {
    assert_eq!(rt; first_tool(rt.alloc(), DOCUMENT)?.as_str(), TOOL);
    Ok(())
}

use std::alloc::Global;
use std::test::Fail;
use wdl_port::PathFile;
use wdl_value::{Items, Text};

/// The task `say`, but for its last brace.
const SAY: &str = "version 1.1
task say {
  input { String s }
  command <<<
    echo ~{s}
  >>>
  output { String r = read_string(stdout()) }
";

/// A document that begins with the task `say`, which has this section too.
pub fn begin_say(text: &mut String, section: &str) -> Result<(), Fail> {
    text.push_str(SAY)?;
    text.push_str(section)?;
    text.push_str("}\n")?;
    Ok(())
}

/// A document that begins so behind its version.
pub fn begin_version(text: &mut String, rest: &str) -> Result<(), Fail> {
    text.push_str("version 1.1\n")?;
    text.push_str(rest)?;
    Ok(())
}

/// A line with its newline.
pub fn push_line(text: &mut String, rest: &str) -> Result<(), Fail> {
    text.push_str(rest)?;
    text.push('\n')?;
    Ok(())
}

/// So many copies: `NUMBER PIECE`.
pub fn push_times(text: &mut String, rest: &str) -> Result<(), Fail> {
    let (number, piece) = rest.split_once(' ').unwrap_or((rest, ""));
    for _ in 0..number.parse::<u32>()? {
        text.push_str(piece)?;
    }
    Ok(())
}

/// Adds a file with these bytes under this path.
pub fn push_file(
    alloc: Global,
    files: &mut Items<PathFile>,
    path: &str,
    bytes: &[u8],
) -> Result<(), Fail> {
    let path = Text::new(alloc, path)?;
    let bytes = Items::from_slice(alloc, bytes)?;
    files.push(PathFile { path, bytes })?;
    Ok(())
}

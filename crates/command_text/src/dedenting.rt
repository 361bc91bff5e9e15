ghost use Rattle.std.specs.Prelude.{◌≡◌, map, string_bytes, IfOk};
ghost use Rattle.wdl_base.specs.Templates as spec;
ghost use Rattle.command_text.specs.Marks.{zeros};

use crate::lines::{common_indent, join_cut, without_first, without_last};
use crate::marked::{Marked, template_of};
use std::alloc::Global;
use wdl_value::{NoMemory, Template};

/// The text without each carriage return that stands directly before a newline.
fn without_returns(alloc: Global, text: &str) -> Result<String, NoMemory>
    ensures { IfOk result (λ t. string_bytes t ≡ spec.without_returns text.now) }
{
    Ok(text.replace(alloc, "\r\n", "\n")?)
}

fn lines_of<'a>(alloc: Global, text: &'a str) -> Result<Vec<&'a str>, NoMemory>
    ensures { IfOk result (λ all. map (λ l. l.now) all.items ≡ spec.lines text.now) }
{
    Ok(text.split('\n').collect(alloc)?)
}

fn dedented_text(alloc: Global, text: &str) -> Result<String, NoMemory>
    ensures value { IfOk result (λ t. string_bytes t ≡ spec.dedented_text text.now) }
    ensures holes { IfOk result (λ t. zeros (string_bytes t) ≡ zeros text.now) }
{
    let own = without_returns(alloc, text)?;
    let all = lines_of(alloc, own.as_str())?;
    let lines = without_last(without_first(all.as_slice()));
    join_cut(alloc, lines, common_indent(lines))
}

/// The template without the indent that its lines have in common.
///
/// A carriage return directly before a newline goes, so that a text with the line ends of Windows
/// comes to the same. The text is split at newlines; a hole counts as a character that is not
/// blank, and blank characters are the blank, the tab and the carriage return. Where there are two
/// lines or more, a blank first one goes, and where there are then two or more, a blank last one.
/// The longest common prefix of blanks and tabs of the lines that are not blank is cut from them,
/// and blank lines become empty. In the result neighbouring characters are one part, no part is
/// empty, and the holes are those of the template, in their order. (OpenWDL 1.1, "Command Section",
/// strips leading white space in the same way.)
pub fn dedent(alloc: Global, template: &Template) -> Result<Template, NoMemory>
    ensures value { IfOk result (λ t. t ≡ spec.dedented template.now) }
    ensures holes { IfOk result (λ t. spec.holes t ≡ spec.holes template.now) }
{
    let marked = Marked::new(alloc, template.as_slice())?;
    let text = dedented_text(alloc, marked.text.as_str())?;
    template_of(alloc, text.as_str(), marked.holes.as_slice())
}

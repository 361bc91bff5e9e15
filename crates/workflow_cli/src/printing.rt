//! The program's own texts.

ghost use Rattle.std.specs.Prelude.{◌≡◌};
ghost use Rattle.workflow_stages.specs.Paths.{HasPaths};
ghost use Rattle.workflow_cli.specs.Printing as spec;

use crate::asking::Page;
use help_text::{help_of, version_text};
use report_text::Status;
use std::alloc::Global;
use wdl_value::Text;
use workflow_stages::{Explain, Work, stop_of};

/// The text of a page.
fn text_of<F: Explain>(page: Page, shelf: &F) -> &'static str
    ensures value { spec.Says page result.now }
{
    match page {
        Page::Help(about) => help_of(about),
        Page::Version => version_text(),
        Page::Code(number) => shelf.number(number),
    }
}

/// A page of the program's own.
pub fn printed<F: Explain>(alloc: Global, page: Page, shelf: &F) -> Work
    ensures value { spec.Prints page result }
    ensures paths { HasPaths result }
{
    // No page holds NUL, so only memory can be lacking.
    match Text::new(alloc, text_of(page, shelf)) {
        Ok(text) => Work::Text(text),
        Err(_) => Work::Stop(stop_of(alloc, Status::NoMemory)),
    }
}

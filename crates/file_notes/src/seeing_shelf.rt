ghost use Rattle.std.specs.Prelude.{◌≡◌};

use crate::warning::Warnings;
use std::alloc::Global;
use std::fs::Files;
use wdl_library::Library;
use wdl_port::{ReadFault, Shelf};
use wdl_typed::Checked;
use wdl_value::{Env, Items, NoMemory, Span, Text};
use workflow_stages::Explain;

/// A shelf that explains as another one does, and warns of input files that jobs will not find.
/// Where nobody reads notes, nothing is explained.
#[derive(Drop)]
pub struct SeeingShelf<F, R> {
    /// The shelf that reads.
    pub shelf: F,
    rt: R,
    here: Option<String>,
    is_read: bool,
}

impl<F, R> SeeingShelf<F, R> {
    /// A shelf over another one. `here` is the folder in which the program was started, and
    /// `is_read` whether anybody reads notes. It takes no memory.
    pub fn new(shelf: F, rt: R, here: Option<String>, is_read: bool) -> SeeingShelf<F, R>
        ensures shelf { result.shelf ≡ shelf }
    {
        SeeingShelf {
            shelf,
            rt,
            here,
            is_read,
        }
    }
}

impl<F, R: Files> SeeingShelf<F, R> {
    /// The warnings on the input files.
    fn file_warnings(&self, alloc: Global, path: &Text, given: &Env) -> Result<String, NoMemory> {
        let here = match &self.here {
            Some(here) => Some(here.as_str()),
            None => None,
        };
        let mut warnings = Warnings::new(&self.rt, alloc, path.as_str(), here);
        warnings.push_inputs(alloc, given)?;
        warnings.into_text()
    }
}

/// The texts, one behind the other.
fn joined(first: Option<String>, second: String) -> Option<String> {
    let Some(mut text) = first else {
        return Some(second);
    };
    let _ = text.push_str(second.as_str());
    Some(text)
}

impl<F: Shelf, R: Files> Shelf for SeeingShelf<F, R> {
    ghost tells = { λ s. F.tells s.shelf };

    ghost refuses = { λ s. F.refuses s.shelf };

    ghost faults = { λ s. F.faults s.shelf };

    fn read(&mut self, alloc: Global, path: &str) -> Result<Items<u8>, ReadFault> {
        self.shelf.read(alloc, path)
    }
}

impl<F: Explain, R: Files> Explain for SeeingShelf<F, R> {
    fn document(
        &self,
        alloc: Global,
        path: &Text,
        code: u16,
        span: Span,
        library: Option<&Library>,
    ) -> Option<String> {
        if self.is_read {
            self.shelf.document(alloc, path, code, span, library)
        } else {
            None
        }
    }

    fn inputs(
        &self,
        alloc: Global,
        path: &Option<Text>,
        code: u16,
        name: &Option<Text>,
        checked: &Checked,
    ) -> Option<String> {
        if self.is_read {
            self.shelf.inputs(alloc, path, code, name, checked)
        } else {
            None
        }
    }

    fn lints(&self, alloc: Global, library: &Library, checked: &Checked) -> Option<String> {
        if self.is_read {
            self.shelf.lints(alloc, library, checked)
        } else {
            None
        }
    }

    fn warnings(&self, alloc: Global, path: &Text, given: &Env) -> Option<String> {
        if !self.is_read {
            return None;
        }
        let others = self.shelf.warnings(alloc, path, given);
        match self.file_warnings(alloc, path, given) {
            Ok(text) => joined(others, text),
            Err(_) => others,
        }
    }

    fn number(&self, number: u32) -> &'static str {
        self.shelf.number(number)
    }
}

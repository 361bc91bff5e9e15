ghost use Rattle.std.specs.Prelude.{◌≡◌};

use wdl_check_rules::Local;
use wdl_names::{Indexed, NameStack};
use wdl_value::StructDef;

/// The structs of the library, the names under which a document knows them, and the calls that are
/// seen.
#[derive(Clone, Copy)]
pub struct Seeing<'a> {
    pub structs: &'a Indexed<'a, StructDef>,
    pub locals: &'a Indexed<'a, Local<'a>>,
    pub calls: &'a NameStack,
}

impl<'a> Seeing<'a> {
    /// The same where these calls are seen.
    pub fn with_calls(&self, calls: &'a NameStack) -> Seeing<'a>
        ensures { result ≡ record { structs = self.now.structs; locals = self.now.locals; calls = calls.entry } }
    {
        Seeing {
            structs: self.structs,
            locals: self.locals,
            calls,
        }
    }
}

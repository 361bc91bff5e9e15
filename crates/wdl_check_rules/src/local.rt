ghost use Rattle.std.specs.Prelude.{◌≡◌};
ghost use Rattle.std.specs.Option.{option_copied};
ghost use Rattle.wdl_check_rules.specs.Locals as spec;

use wdl_names::{Indexed, Named};
use wdl_value::{Name, StructDef};

/// A name under which a document knows a struct, and the name of that struct in the library
/// (OpenWDL 1.1, "Struct Definition" and "Import Statements").
#[derive(Clone, Copy)]
pub struct Local<'a> {
    pub name: &'a Name,
    pub stands_for: &'a Name,
}

impl Named for Local<'_> {
    ghost named = { λ l. l.name.now };

    fn name(&self) -> &Name {
        self.name
    }
}

/// The name of the library that a name of the document stands for.
pub fn stands_for<'a>(locals: &Indexed<'_, Local<'a>>, name: &Name) -> Option<&'a Name>
    ensures { option_copied result ≡ spec.stands_for locals.now name.now }
{
    let local = locals.find(name)?;
    Some(local.stands_for)
}

/// The struct of the library that a name of the document stands for.
pub fn struct_named<'a>(
    structs: &Indexed<'a, StructDef>,
    locals: &Indexed<Local>,
    name: &Name,
) -> Option<&'a StructDef>
    ensures { option_copied result ≡ spec.struct_named structs.now (spec.stands_for locals.now) name.now }
{
    structs.find(stands_for(locals, name)?)
}

//! The struct sections of a bundle.

ghost use Rattle.std.specs.Prelude.{◌≡◌, ◌++◌, map, option_map, IfOk, OnOk};
ghost use Rattle.std.specs.Option.{option_copied};
ghost use Rattle.wdl_library.specs.Sections.{structs_in};
ghost use Rattle.wdl_check_rules.specs.Locals as local;
ghost use Rattle.wdl_bundle.specs.StructSections as spec;
ghost use Rattle.struct_names.specs.Known.{known_of};

use sqlite_items::Items;
use std::alloc::Global;
use struct_names::DocNames;
use wdl_ast::{Section, StructSection};
use wdl_check_rules::{Local, stands_for};
use wdl_copies::{copy_struct, put};
use wdl_names::{Indexed, Named};
use wdl_value::{Name, NoMemory, StructDef};

/// A struct section under the name of the library that stands for its struct, with the names of
/// structs in its document.
#[derive(Clone, Copy)]
pub struct Declared<'a> {
    pub name: &'a Name,
    pub locals: &'a Indexed<'a, Local<'a>>,
    pub section: &'a StructSection,
}

impl Named for Declared<'_> {
    ghost named = { λ d. d.name.now };

    fn name(&self) -> &Name {
        self.name
    }
}

fn push_declared<'a>(
    declared: &mut Vec<Declared<'a>>,
    known: &'a DocNames<'a, 'a>,
) -> Result<(), NoMemory>
    ensures { OnOk result (map spec.declared_of declared.new.items ≡ map spec.declared_of declared.old.items ++ spec.declared_in (local.stands_for known.now.locals) (structs_in known.now.doc.now.document.sections)) }
{
    for section in known.doc.document.sections.as_slice() {
        if let Section::Struct(section) = section {
            if let Some(name) = stands_for(&known.locals, &section.name.name) {
                declared.push(Declared {
                    name,
                    locals: &known.locals,
                    section,
                })?;
            }
        }
    }
    Ok(())
}

/// The struct sections of all documents, in their order.
fn all_declared<'a>(
    alloc: Global,
    knowns: &'a [DocNames<'a, 'a>],
) -> Result<Vec<Declared<'a>>, NoMemory>
    ensures { IfOk result (λ ds. map spec.declared_of ds.items ≡ spec.all_declared (map known_of knowns.now)) }
{
    let mut declared = Vec::new(alloc);
    for known in knowns {
        push_declared(&mut declared, known)?;
    }
    Ok(declared)
}

/// The first section of the struct that document 0 knows under that name.
fn declared_for<'a>(
    own: &Indexed<Local>,
    declared: &Indexed<'a, Declared<'a>>,
    name: &Name,
) -> Option<&'a Declared<'a>>
    ensures { option_map spec.declared_of (option_copied result) ≡ spec.declared_for (local.stands_for own.now) (map spec.declared_of declared.now) name.now }
{
    let root = stands_for(own, name)?;
    declared.find(root)
}

fn push_struct(
    alloc: Global,
    sections: &mut Items<Section>,
    name: &Name,
    declared: Option<&Declared>,
) -> Result<(), NoMemory>
    ensures { OnOk result (sections.new ≡ sections.old ++ spec.section_as name.now (option_map spec.declared_of (option_copied declared.entry))) }
{
    let Some(declared) = declared else {
        return Ok(());
    };
    let copy = copy_struct(alloc, declared.section, name, declared.locals)?;
    put(sections, Section::Struct(copy))
}

fn push_each<'a>(
    alloc: Global,
    sections: &mut Items<Section>,
    structs: &[StructDef],
    own: &Indexed<Local>,
    declared: &Indexed<'a, Declared<'a>>,
) -> Result<(), NoMemory>
    ensures { OnOk result (sections.new ≡ sections.old ++ spec.struct_sections (local.stands_for own.now) (map spec.declared_of declared.now) structs.now) }
{
    for def in structs {
        push_struct(
            alloc,
            sections,
            &def.name,
            declared_for(own, declared, &def.name),
        )?;
    }
    Ok(())
}

/// Adds the sections of the structs of the library, by the names that document 0 has for them.
pub fn push_structs<'a>(
    alloc: Global,
    sections: &mut Items<Section>,
    structs: &[StructDef],
    own: &Indexed<Local>,
    knowns: &'a [DocNames<'a, 'a>],
) -> Result<(), NoMemory>
    ensures { OnOk result (sections.new ≡ sections.old ++ spec.struct_sections (local.stands_for own.now) (spec.all_declared (map known_of knowns.now)) structs.now) }
{
    let list = all_declared(alloc, knowns)?;
    let declared = Indexed::new(alloc, list.as_slice())?;
    push_each(alloc, sections, structs, own, &declared)
}

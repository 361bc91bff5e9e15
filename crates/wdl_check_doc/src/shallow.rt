//! How many structs the members of structs lead through.

ghost use Rattle.std.specs.Prelude.{◌≡◌, map};
ghost use Rattle.wdl_depths.specs.Depths.{shallow_level};
ghost use Rattle.wdl_library.specs.Sections.{structs_in};
ghost use Rattle.wdl_check_rules.specs.Locals.{stands_for as naming};
ghost use Rattle.wdl_check_types.specs.Outcome.{Answers};
ghost use Rattle.wdl_check_doc.specs.Outcomes.{all};
ghost use Rattle.wdl_check_doc.specs.Parts.{part_of};
ghost use Rattle.wdl_check_doc.specs.Structs as spec;

use crate::fault::placed;
use crate::numbered_doc::Part;
use std::alloc::Global;
use wdl_ast::{Section, StructSection};
use wdl_check_rules::{CheckFault, Local, stands_for};
use wdl_depths::{MOST_STRUCTS, name_is_shallow, shallow_structs};
use wdl_names::Indexed;
use wdl_value::{Name, StructDef};

/// The name of the library for the struct of a section.
fn struct_name<'a>(section: &'a StructSection, locals: &Indexed<'_, Local<'a>>) -> &'a Name
    ensures { result.now ≡ spec.struct_name (naming locals.now) section.now }
{
    match stands_for(locals, &section.name.name) {
        Some(name) => name,
        None => &section.name.name,
    }
}

fn check_section(
    section: &StructSection,
    locals: &Indexed<Local>,
    structs: &Indexed<StructDef>,
    table: &[bool],
) -> Result<(), CheckFault>
    requires { table.now ≡ shallow_level 32 structs.now }
    ensures { Answers (spec.section_nests structs.now (naming locals.now) section.now) result }
{
    if !name_is_shallow(struct_name(section, locals), MOST_STRUCTS, table, structs) {
        return Err(CheckFault::Bad {
            code: 330,
            span: section.name.span,
        });
    }
    Ok(())
}

fn check_sections(
    sections: &[Section],
    locals: &Indexed<Local>,
    structs: &Indexed<StructDef>,
    table: &[bool],
) -> Result<(), CheckFault>
    requires { table.now ≡ shallow_level 32 structs.now }
    ensures { Answers (all (spec.section_nests structs.now (naming locals.now)) (structs_in sections.now)) result }
{
    for section in sections {
        if let Section::Struct(declared) = section {
            check_section(declared, locals, structs, table)?;
        }
    }
    Ok(())
}

fn check_part(part: &Part, structs: &Indexed<StructDef>, table: &[bool]) -> Result<(), CheckFault>
    requires { table.now ≡ shallow_level 32 structs.now }
    ensures { Answers (spec.sections_nest structs.now (part_of part.now)) result }
{
    let sections = part.doc.document.sections.as_slice();
    placed(
        part.number,
        check_sections(sections, part.locals, structs, table),
    )
}

fn check_parts(
    parts: &[Part],
    structs: &Indexed<StructDef>,
    table: &[bool],
) -> Result<(), CheckFault>
    requires { table.now ≡ shallow_level 32 structs.now }
    ensures { Answers (all (spec.sections_nest structs.now) (map part_of parts.now)) result }
{
    for part in parts {
        check_part(part, structs, table)?;
    }
    Ok(())
}

/// 330 at the section of a struct whose members form a circle or lead through more than 32 structs
/// (OpenWDL 1.1, "Struct Definition").
pub fn check_depths(
    alloc: Global,
    parts: &[Part],
    structs: &Indexed<StructDef>,
) -> Result<(), CheckFault>
    ensures { Answers (all (spec.sections_nest structs.now) (map part_of parts.now)) result }
{
    let table = shallow_structs(alloc, structs)?;
    check_parts(parts, structs, table.as_slice())
}

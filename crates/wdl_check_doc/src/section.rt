//! The struct sections of a library: their names and types.

ghost use Rattle.std.specs.Prelude.{◌≡◌, map, IfOk};
ghost use Rattle.wdl_library.specs.Sections.{structs_in};
ghost use Rattle.wdl_check_rules.specs.Locals.{stands_for};
ghost use Rattle.wdl_check_types.specs.Outcome.{Answers};
ghost use Rattle.wdl_check_doc.specs.Outcomes.{all};
ghost use Rattle.wdl_check_doc.specs.Parts.{part_of};
ghost use Rattle.wdl_check_doc.specs.Structs as spec;

use crate::fault::placed;
use crate::numbered_doc::Part;
use std::alloc::Global;
use wdl_ast::{Ident, Section, StructMember, StructSection};
use wdl_check_decls::first_repeated;
use wdl_check_rules::{CheckFault, Local};
use wdl_check_types::written_type;
use wdl_names::Indexed;
use wdl_value::NoMemory;

fn idents_of<'a>(alloc: Global, members: &'a [StructMember]) -> Result<Vec<&'a Ident>, NoMemory>
    ensures { IfOk result (λ ns. map (λ n. n.now) ns.items ≡ map (λ m. m.name) members.now) }
{
    let mut idents = Vec::new(alloc);
    for member in members {
        idents.push(&member.name)?;
    }
    Ok(idents)
}

fn check_member(
    alloc: Global,
    member: &StructMember,
    locals: &Indexed<Local>,
) -> Result<(), CheckFault>
    ensures { Answers (spec.member_typed (stands_for locals.now) member.now) result }
{
    written_type(alloc, &member.ty, locals)?;
    Ok(())
}

fn check_members(
    alloc: Global,
    members: &[StructMember],
    locals: &Indexed<Local>,
) -> Result<(), CheckFault>
    ensures { Answers (all (spec.member_typed (stands_for locals.now)) members.now) result }
{
    for member in members {
        check_member(alloc, member, locals)?;
    }
    Ok(())
}

/// 321 at a member whose name stands before, 329 at a type that cannot be written.
fn check_section(
    alloc: Global,
    section: &StructSection,
    locals: &Indexed<Local>,
) -> Result<(), CheckFault>
    ensures { Answers (spec.section_typed (stands_for locals.now) section.now) result }
{
    let idents = idents_of(alloc, section.members.as_slice())?;
    if let Some(span) = first_repeated(alloc, idents.as_slice())? {
        return Err(CheckFault::Bad { code: 321, span });
    }
    check_members(alloc, section.members.as_slice(), locals)
}

fn check_sections(
    alloc: Global,
    sections: &[Section],
    locals: &Indexed<Local>,
) -> Result<(), CheckFault>
    ensures { Answers (all (spec.section_typed (stands_for locals.now)) (structs_in sections.now)) result }
{
    for section in sections {
        if let Section::Struct(declared) = section {
            check_section(alloc, declared, locals)?;
        }
    }
    Ok(())
}

fn check_part(alloc: Global, part: &Part) -> Result<(), CheckFault>
    ensures { Answers (spec.sections_typed (part_of part.now)) result }
{
    let sections = part.doc.document.sections.as_slice();
    placed(part.number, check_sections(alloc, sections, part.locals))
}

/// The struct sections of all documents (OpenWDL 1.1, "Struct Definition"): 321 at a member whose
/// name stands before, 329 at a type that cannot be written.
pub fn check_all_sections(alloc: Global, parts: &[Part]) -> Result<(), CheckFault>
    ensures { Answers (all spec.sections_typed (map part_of parts.now)) result }
{
    for part in parts {
        check_part(alloc, part)?;
    }
    Ok(())
}

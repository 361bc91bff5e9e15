//! The process with records round the process of a lowered form (CWL v1.2 Workflow,
//! "InputRecordSchema").

ghost use Rattle.std.specs.Prelude.{◌≡◌, IfOk, map};
ghost use Rattle.std.specs.Option.{option_copied};
ghost use Rattle.wdl_value.specs.declared.ty.Ty.{out-Ty};
ghost use Rattle.cwl_records.specs.Wrapping as spec;

use crate::leaf::RecordLeaf;
use crate::wide::{FieldTy, RecordField, RecordProcess, WideIn, WideWire};
use cwl_model::{CwlFlow, CwlIn, Process};
use cwl_tool::{cwl_type, input_of};
use std::alloc::Global;
use struct_leaves::{copy_names, is_record};
use struct_members::members_of;
use wdl_names::Indexed;
use wdl_typed::TInput;
use wdl_value::{Items, Member, NoMemory, StructDef, Structs, Text, Ty};

/// The most structs through which the members of a struct lead.
const LEVELS: u32 = 32;

/// The type of a member.
#[cycle(fields)]
#[tactic(auto, using(crate::proofs::FieldLaws::field_none, crate::proofs::FieldLaws::field_some))]
fn field_ty(
    alloc: Global,
    structs: &Indexed<StructDef>,
    level: u32,
    ty: &Ty,
) -> Result<FieldTy, NoMemory>
    ensures { IfOk result (λ t. t ≡ spec.field_ty structs.now level ty.now) }
{
    if level == 0 {
        return Ok(FieldTy::One(cwl_type(alloc, ty)?));
    }
    let Ty::Struct(name) = ty else {
        return Ok(FieldTy::One(cwl_type(alloc, ty)?));
    };
    let Some(members) = members_of(structs, name) else {
        return Ok(FieldTy::Fields(Items::new(alloc)));
    };
    Ok(FieldTy::Fields(all_fields(alloc, structs, level - 1, members)?))
}

#[cycle(fields)]
fn all_fields(
    alloc: Global,
    structs: &Indexed<StructDef>,
    level: u32,
    members: &[Member],
) -> Result<Items<RecordField<FieldTy>>, NoMemory>
    ensures { IfOk result (λ fs. fs ≡ spec.all_fields (spec.field_ty structs.now level) members.now) }
{
    let mut fields = Items::new(alloc);
    for member in members {
        let name = member.name.copy(alloc)?;
        let ty = field_ty(alloc, structs, level, &member.ty)?;
        fields.push(RecordField { name, ty })?;
    }
    Ok(fields)
}

/// The fields of a struct type.
fn struct_fields(
    alloc: Global,
    structs: &Indexed<StructDef>,
    ty: &Ty,
) -> Result<Items<RecordField<FieldTy>>, NoMemory>
    ensures { IfOk result (λ fs. fs ≡ spec.struct_fields structs.now (out-Ty ty.now)) }
{
    let Ty::Struct(name) = ty else {
        return Ok(Items::new(alloc));
    };
    match members_of(structs, name) {
        Some(members) => all_fields(alloc, structs, LEVELS, members),
        None => Ok(Items::new(alloc)),
    }
}

fn wide_in(alloc: Global, structs: &Indexed<StructDef>, input: &TInput) -> Result<WideIn, NoMemory>
    ensures { IfOk result (λ i. i ≡ spec.wide_in structs.now input.now) }
{
    if !is_record(input) {
        return Ok(WideIn::Plain(input_of(alloc, input)?));
    }
    let id = input.name.to_text(alloc)?;
    let fields = struct_fields(alloc, structs, &input.ty)?;
    Ok(WideIn::Record { id, fields })
}

fn wide_inputs(
    alloc: Global,
    structs: &Indexed<StructDef>,
    source: &[TInput],
) -> Result<Items<WideIn>, NoMemory>
    ensures { IfOk result (λ is. is ≡ map (spec.wide_in structs.now) source.now) }
{
    let mut inputs = Items::new(alloc);
    for input in source {
        inputs.push(wide_in(alloc, structs, input)?)?;
    }
    Ok(inputs)
}

/// The leaf of that name.
fn leaf_named<'a>(records: &'a [RecordLeaf], id: &Text) -> Option<&'a RecordLeaf>
    ensures { option_copied result ≡ spec.leaf_named records.now id.now }
{
    for leaf in records {
        if leaf.leaf.is(id.as_str()) {
            return Some(leaf);
        }
    }
    None
}

fn wire_in(alloc: Global, records: &[RecordLeaf], input: &CwlIn) -> Result<WideWire, NoMemory>
    ensures { IfOk result (λ w. w ≡ spec.wire_in records.now input.now) }
{
    let id = input.id.copy(alloc)?;
    match leaf_named(records, &input.id) {
        Some(leaf) => {
            let source = leaf.input.to_text(alloc)?;
            let path = copy_names(alloc, leaf.path.as_slice())?;
            Ok(WideWire { id, source, path })
        }
        None => {
            let source = input.id.copy(alloc)?;
            let path = Items::new(alloc);
            Ok(WideWire { id, source, path })
        }
    }
}

fn wires_of(
    alloc: Global,
    records: &[RecordLeaf],
    inputs: &[CwlIn],
) -> Result<Items<WideWire>, NoMemory>
    ensures { IfOk result (λ ws. ws ≡ map (spec.wire_in records.now) inputs.now) }
{
    let mut wires = Items::new(alloc);
    for input in inputs {
        wires.push(wire_in(alloc, records, input)?)?;
    }
    Ok(wires)
}

/// The process of a form with struct inputs, round the process of its lowered form (CWL v1.2
/// Workflow, "InputRecordSchema"): main's inputs as they were, a struct input as a record of its
/// members; and each input of the body from the input or the member for which it stands.
///
/// # Errors
///
/// `NoMemory` alone.
pub fn wrap(
    alloc: Global,
    records: &[RecordLeaf],
    source: &[TInput],
    structs: &Structs,
    body: CwlFlow<Process>,
) -> Result<RecordProcess, NoMemory>
    ensures { IfOk result (λ p. p ≡ spec.wrapped records.now source.now structs.now body) }
{
    let structs = Indexed::new(alloc, structs.as_slice())?;
    let inputs = wide_inputs(alloc, &structs, source)?;
    let wires = wires_of(alloc, records, body.inputs.as_slice())?;
    Ok(RecordProcess {
        inputs,
        wires,
        body,
    })
}

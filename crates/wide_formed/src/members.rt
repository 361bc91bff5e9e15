//! The names of a process with record inputs.

ghost use Rattle.std.specs.Prelude.{◌≡◌, true};
ghost use Rattle.std.specs.List.{list_all};
ghost use Rattle.wdl_base.specs.Names.{is_name};
ghost use Rattle.cwl_emit.specs.Formed.{is_plain};
ghost use Rattle.wide_formed.specs.Forms as spec;

use cwl_records::{FieldTy, RecordField, RecordProcess, WideIn, WideWire};
use wdl_value::{Name, Text};

/// A text holds no NUL.
fn see(text: &Text)
    ensures { is_plain text.now ≡ true }
{
    let _text = text.as_str();
}

/// A name is a NAME.
fn see_name(name: &Name)
    ensures { is_name name.now ≡ true }
{
    let _name = name.as_str();
}

fn see_path(names: &[Name])
    ensures { list_all is_name names.now ≡ true }
{
    for name in names {
        see_name(name);
    }
}

#[cycle(seen)]
fn see_type(ty: &FieldTy)
    ensures { spec.field_named ty.now ≡ true }
{
    match ty {
        FieldTy::One(_) => {}
        FieldTy::Fields(fields) => see_fields(fields.as_slice()),
    }
}

#[cycle(seen)]
fn see_fields(fields: &[RecordField<FieldTy>])
    ensures { spec.fields_named fields.now ≡ true }
{
    for field in fields {
        see_name(&field.name);
        see_type(&field.ty);
    }
}

fn see_input(input: &WideIn)
    ensures { spec.input_named input.now ≡ true }
{
    match input {
        WideIn::Plain(_) => {}
        WideIn::Record { id, fields } => {
            see(id);
            see_fields(fields.as_slice());
        }
    }
}

fn see_inputs(inputs: &[WideIn])
    ensures { list_all spec.input_named inputs.now ≡ true }
{
    for input in inputs {
        see_input(input);
    }
}

fn see_wire(wire: &WideWire)
    ensures { spec.wire_named wire.now ≡ true }
{
    see(&wire.id);
    see(&wire.source);
    see_path(wire.path.as_slice());
}

fn see_wires(wires: &[WideWire])
    ensures { list_all spec.wire_named wires.now ≡ true }
{
    for wire in wires {
        see_wire(wire);
    }
}

/// The fields of a process with record inputs (CWL v1.2 Workflow, "InputRecordSchema") have NAMEs,
/// and its ids hold no NUL. The walk only tells this to the proof.
pub fn see_members(process: &RecordProcess)
    ensures { spec.wide_named process.now ≡ true }
{
    see_inputs(process.inputs.as_slice());
    see_wires(process.wires.as_slice());
}

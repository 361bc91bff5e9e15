use cwl_model::{CwlFlow, CwlIn, CwlTy, Process};
use wdl_value::{Items, Name, Text};

/// A field of a record, with a type of type `T`.
#[derive(Debug, Drop)]
pub struct RecordField<T> {
    pub name: Name,
    pub ty: T,
}

/// The type of a field: one of this profile, or a record of fields (CWL v1.2 Workflow,
/// "InputRecordSchema").
#[derive(Debug, Drop)]
pub enum FieldTy {
    One(CwlTy),
    Fields(Items<RecordField<FieldTy>>),
}

/// An input of a record process: one of this profile, or a record.
#[derive(Debug, Drop)]
pub enum WideIn {
    Plain(CwlIn),
    Record {
        id: Text,
        fields: Items<RecordField<FieldTy>>,
    },
}

/// An input of the body: the input of the record process from which it comes, and the fields that
/// lead to it.
#[derive(Debug, Drop)]
pub struct WideWire {
    pub id: Text,
    pub source: Text,
    pub path: Items<Name>,
}

/// A workflow of one step, its body, whose inputs may be records (CWL v1.2 Workflow,
/// "InputRecordSchema").
#[derive(Debug, Drop)]
pub struct RecordProcess {
    pub inputs: Items<WideIn>,
    pub wires: Items<WideWire>,
    pub body: CwlFlow<Process>,
}

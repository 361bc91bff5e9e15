ghost use Rattle.std.specs.Prelude.{◌≡◌, true};
ghost use Rattle.wdl_typed.specs.Bodies.{library};
ghost use Rattle.wdl_typed.specs.Kept.{is_checked};

use crate::flow::FlowDef;
use crate::task::TaskDef;
use sqlite_items::Items;
use wdl_value::Structs;

/// The parts of a checked form.
#[derive(Debug, Drop)]
pub struct CheckedParts {
    pub structs: Structs,
    pub tasks: Items<TaskDef>,
    pub flows: Items<FlowDef>,
    pub main: Option<u32>,
}

/// A library that was checked: the structs, the tasks and the workflows of all its documents, and
/// the number of the main workflow, if there is one.
///
/// It keeps that all of it is well typed (OpenWDL 1.1, "Types" and "Expressions"); that each task
/// or workflow that a call names is one of the list; that inputs, declarations, statements and
/// outputs stand after those of their list that they need; that the blocks of one kind in one body
/// are numbered from 0 on; that calls form no circle, at most 24 blocks and calls stand on one
/// path, and members of structs lead through at most 32 structs. It has fewer than 2^32 tasks,
/// workflows, statements and parts of commands in all.
#[derive(Debug, Drop)]
pub struct Checked {
    pub structs: Structs,
    pub tasks: Items<TaskDef>,
    pub flows: Items<FlowDef>,
    pub main: Option<u32>,
    pub ghost kept: { is_checked (library structs tasks flows) main ≡ true },
}

impl Checked {
    /// The checked form of these parts.
    pub fn new(parts: CheckedParts) -> Checked
        requires kept { is_checked (library parts.structs parts.tasks parts.flows) parts.main ≡ true }
        ensures structs { result.structs ≡ parts.structs }
        ensures tasks { result.tasks ≡ parts.tasks }
        ensures flows { result.flows ≡ parts.flows }
        ensures main { result.main ≡ parts.main }
    {
        let CheckedParts {
            structs,
            tasks,
            flows,
            main,
        } = parts;
        Checked {
            structs,
            tasks,
            flows,
            main,
        }
    }
}

//! What is true of every workflow that is typed.

ghost use Rattle.wdl_check_flow.specs.Laws.{
  BodiesGive,
  FlowsCounted,
  FlowsNamed,
  FlowsTyped,
  HeadsFit,
};

/// Over a library that has what the calls of a document may name, the statements of a typed
/// workflow are well typed and give out what they are said to give, its inputs and outputs are well
/// typed, and what calls see of it is what it has. Its names differ where one can see the other,
/// its blocks are numbered, and it has no more statements than its text has tokens.
pub fn workflows_are_well_typed()
    ensures bodies { BodiesGive }
    ensures heads { HeadsFit }
    ensures lists { FlowsTyped }
    ensures counts { FlowsCounted }
    ensures names { FlowsNamed }
{}

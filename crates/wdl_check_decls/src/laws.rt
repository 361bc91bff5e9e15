//! What is true of everything that is typed here.

ghost use Rattle.wdl_check_decls.specs.Laws.{
  CastTypes,
  DeclTypes,
  DeclsTypes,
  ExprTypes,
  InputsTypes,
  PlacedTypes,
};

/// Each typed expression is well typed in what it sees, also under a cast, and so is each that may
/// be a call of a function that writes a file, in its place. Where each name of a document stands
/// for a struct of the library, typed inputs and declarations are well typed: their types can be
/// written, and their expressions have exactly these types.
pub fn declarations_are_well_typed()
    ensures expression { ExprTypes }
    ensures cast { CastTypes }
    ensures placed { PlacedTypes }
    ensures inputs { InputsTypes }
    ensures declaration { DeclTypes }
    ensures declarations { DeclsTypes }
{}

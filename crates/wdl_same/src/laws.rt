//! Laws of the definitions, which say nothing of code.

ghost use Rattle.wdl_same.specs.Laws.{FormsAgree, SameExprsAreEqual};

/// The test of expressions says exactly that they are equal.
pub fn same_exprs_are_equal()
    ensures law { SameExprsAreEqual }
{}

/// Two checked forms that are the same but for the names and numbers of tasks: where the one has a
/// main workflow, the other has one of the same name, which takes the same inputs. For all inputs,
/// every site and every table of answers the flows of both (OpenWDL 1.1, "Workflow Definition") are
/// equal: known names, calls, jobs with the statuses of their successes, faults, waits and the
/// count of statements.
pub fn same_forms_agree()
    ensures law { FormsAgree }
{}

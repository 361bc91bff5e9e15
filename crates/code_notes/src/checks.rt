//! What is said of checks of documents.

const UNKNOWN_NAME: &str = "\
301 UnknownName: an error that the check finds, status 3

A name that is not visible there.

Example:
  Int x = y

What to do:
  An output of a call is `call.output`; defaults of inputs see inputs alone.
";

const UNKNOWN_FUNCTION: &str = "\
302 UnknownFunction: an error that the check finds, status 3

An unknown function.

Example:
  Int x = frobnicate(1)

What to do:
  Docs/LANGUAGE.md lists them.
";

const NO_COERCION: &str = "\
303 NoCoercion: an error that the check finds, status 3

A value whose type does not convert to the expected one.

Example:
  Int x = \"a\"

What to do:
  Outside a scatter its names are arrays, and outside an `if` they are
  optional: use `select_first`.
";

const BAD_OPERANDS: &str = "\
304 BadOperands: an error that the check finds, status 3

Operands that the operator does not take.

Example:
  Int x = 1 + true
";

const BAD_ARGUMENTS: &str = "\
305 BadArguments: an error that the check finds, status 3

Arguments that the function does not take, or another number of them.

Example:
  Int x = length(1)
";

const NO_MEMBER: &str = "\
306 NoMember: an error that the check finds, status 3

A member that the pair or the struct does not have, or a value that has none.

Example:
  Int x = (1, 2).middle

What to do:
  A pair has `left` and `right`.
";

const NOT_CALLABLE: &str = "\
307 NotCallable: an error that the check finds, status 3

The name of a call used as a value.

Example:
  task t { command <<<>>> output { Int o = 1 } } workflow w { call t Int x = t }

What to do:
  Name an output: `t.o`.
";

const ARRAY_IN_PLACEHOLDER: &str = "\
308 ArrayInPlaceholder: an error that the check finds, status 3

A placeholder over a value that it does not take.

Example:
  String s = \"~{[1, 2]}\"

What to do:
  `~{sep=\", \" [1, 2]}`.
";

const READ_OUTSIDE_OUTPUTS: &str = "\
309 ReadOutsideOutputs: an error that the check finds, status 3

`stdout`, `stderr`, `glob` or a read function anywhere but in the outputs of a
task.

Example:
  String s = read_string(\"f\")

What to do:
  Let a task read the file.
";

const MEMBERS_DIFFER: &str = "\
310 MembersDiffer: an error that the check finds, status 3

Items, keys, values or branches without a common type; a struct literal that
lacks a member, has one twice or one that is not declared.

Example:
  Array[Int] xs = [1, \"a\"]
";

const BAD_RUNTIME: &str = "\
311 BadRuntime: an error that the check finds, status 3

`returnCodes` that are no number, no list of numbers and not `\"*\"`;
`maxRetries` that is no number.

Example:
  task t { command <<<>>> runtime { maxRetries: \"2\" } }
";

const WRITE_MISPLACED: &str = "\
312 WriteMisplaced: an error that the check finds, status 3

A write function that is not the whole of a private declaration of a task or of
a plain placeholder in a command.

Example:
  File f = write_lines([])

What to do:
  Write the file in the task that uses it.
";

const CIRCULAR: &str = "\
320 Circular: an error that the check finds, status 3

Inputs, declarations, calls or blocks that need one another in a circle; a
block needs all that its body needs.

Example:
  Int a = b Int b = a

What to do:
  Split the block.
";

const DUPLICATE: &str = "\
321 Duplicate: an error that the check finds, status 3

A name twice where one is visible to the other: of declarations, calls, inputs,
outputs, tasks, members, arguments; a second workflow.

Example:
  Int a = 1 Int a = 2

What to do:
  A second call of a task: `call t as second`.
";

const UNKNOWN_TASK: &str = "\
322 UnknownTask: an error that the check finds, status 3

A call of an unknown task or workflow.

Example:
  call t

What to do:
  An imported one is `namespace.name`.
";

const INPUT_MISSING: &str = "\
323 InputMissing: an error that the check finds, status 3

A call that leaves out a required input.

Example:
  task t { input { Int x } command <<<>>> } workflow w { call t }

What to do:
  Give it, give the task a default, or make the input optional.
";

const INPUT_UNKNOWN: &str = "\
324 InputUnknown: an error that the check finds, status 3

A call that gives an unknown input.

Example:
  task t { command <<<>>> } workflow w { call t { input: x = 1 } }
";

const CONDITION_NOT_BOOLEAN: &str = "\
325 ConditionNotBoolean: an error that the check finds, status 3

`if (..)` over a value that is no Boolean.

Example:
  if (1) { }

What to do:
  `defined(x)` tests an optional value.
";

const NOT_AN_ARRAY: &str = "\
326 NotAnArray: an error that the check finds, status 3

`scatter` over a value that is no array.

Example:
  scatter (i in 3) { }

What to do:
  `scatter (i in range(3)) { }`.
";

const NO_WORKFLOW: &str = "\
327 NoWorkflow: an error that the check finds, status 3

The document to run has no workflow.

Example:
  task t { command <<<>>> }

What to do:
  `wdl check` accepts it; add a workflow to run it.
";

const TOO_NESTED: &str = "\
328 TooNested: an error that the check finds, status 3

More than 24 blocks and calls inside one another, also through called
workflows.

Example:
  25 blocks inside one another

What to do:
  One scatter over `cross(xs, ys)` does the work of two.
";

const UNKNOWN_TYPE: &str = "\
329 UnknownType: an error that the check finds, status 3

A type that names no struct, or a map whose keys are not Boolean, Int, String
or File.

Example:
  workflow w { input { S s } }

What to do:
  Import the document that declares it.
";

const STRUCT_CIRCLE: &str = "\
330 StructCircle: an error that the check finds, status 3

Structs that hold one another in a circle, or on more than 32 levels.

Example:
  struct S { S s }
";

/// Returns what is said of the number, if it is one of these.
pub(crate) fn of_check(number: u32) -> Option<&'static str> {
    match number {
        301 => Some(UNKNOWN_NAME),
        302 => Some(UNKNOWN_FUNCTION),
        303 => Some(NO_COERCION),
        304 => Some(BAD_OPERANDS),
        305 => Some(BAD_ARGUMENTS),
        306 => Some(NO_MEMBER),
        307 => Some(NOT_CALLABLE),
        308 => Some(ARRAY_IN_PLACEHOLDER),
        309 => Some(READ_OUTSIDE_OUTPUTS),
        310 => Some(MEMBERS_DIFFER),
        311 => Some(BAD_RUNTIME),
        312 => Some(WRITE_MISPLACED),
        320 => Some(CIRCULAR),
        321 => Some(DUPLICATE),
        322 => Some(UNKNOWN_TASK),
        323 => Some(INPUT_MISSING),
        324 => Some(INPUT_UNKNOWN),
        325 => Some(CONDITION_NOT_BOOLEAN),
        326 => Some(NOT_AN_ARRAY),
        327 => Some(NO_WORKFLOW),
        328 => Some(TOO_NESTED),
        329 => Some(UNKNOWN_TYPE),
        330 => Some(STRUCT_CIRCLE),
        _ => None,
    }
}

//! Laws of the definitions, which say nothing of code.

ghost use Rattle.plan_moves.specs.Laws.{
  AnswersArrive,
  BlocksEnter,
  BlocksPass,
  CallsMove,
  DeclarationsMove,
  DefaultsMove,
  FlowsEnter,
  JointsMove,
};
ghost use Rattle.plan_moves.specs.Telling.{CallsTell, RowsArrive};

/// A step of a joint that sets its cell to what the rule says of the cells that it needs: the net
/// goes on growing, and its work is as it was.
pub fn joints_move()
    ensures { JointsMove }
{}

/// A step of a declaration whose cell and work are what the definition of declarations gives over
/// the step's needs: the net goes on growing, with that work more.
pub fn declarations_move()
    ensures { DeclarationsMove }
{}

/// The same of the default of an input, and of an output.
pub fn defaults_move()
    ensures { DefaultsMove }
{}

/// A step of a call whose cells and work are what the definition of calls gives over the step's
/// needs, where it is a task's or an argument failed: the net goes on growing, with that work more.
pub fn calls_move()
    ensures { CallsMove }
{}

/// A step of a block that is not entered: its collection or its condition failed, or the condition
/// is false. The net goes on growing, with that fault more, or with no more work.
pub fn blocks_pass()
    ensures { BlocksPass }
{}

/// An answer more, whose call's cells and work are what the definition of calls gives over the
/// longer table: the net goes on growing, with the call's work anew.
pub fn answers_arrive()
    ensures { AnswersArrive }
{}

/// A step of a block that is entered, whose body's instances have grown as far as they may, with
/// joints for what they give out: the net goes on growing, with their work more and their leaves
/// more.
pub fn blocks_enter()
    ensures { BlocksEnter }
{}

/// A step of a call of a workflow whose arguments are there, whose instance has grown as far as it
/// may, with joints for its outputs: the net goes on growing, with its work more and its leaves
/// more.
pub fn flows_enter()
    ensures { FlowsEnter }
{}

/// What a call tells over a table: an argument failed, its task asked nothing, an attempt waits, or
/// the last one that was answered gives its outputs or a fault.
pub fn calls_tell()
    ensures { CallsTell }
{}

/// One row more answers the attempt that waits at its place, so that the next one waits where it
/// was refused; elsewhere nothing changes.
pub fn rows_arrive()
    ensures { RowsArrive }
{}

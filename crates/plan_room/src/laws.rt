//! Laws of the definitions, which say nothing of code.

ghost use Rattle.plan_room.specs.Laws.{BlocksFit, BodiesFit, FlowsFit, NeedsFit};

/// What is needed of names that are reached is reached.
pub fn needs_fit()
    ensures { NeedsFit }
{}

/// A body that is laid out has its cells: what its statements give out is among them, and what they
/// need is there behind any number of cells, where what the body sees is there.
pub fn bodies_fit()
    ensures { BodiesFit }
{}

/// The body of a block is laid out and may be entered where what the block sees is there.
pub fn blocks_fit()
    ensures { BlocksFit }
{}

/// A workflow that is laid out may be entered behind any number of cells.
pub fn flows_fit()
    ensures { FlowsFit }
{}

//! Laws over the definitions. A call does nothing: what it is for is its clause.

ghost use Rattle.wdl_load.specs.Loads.{FollowRule, TableGives};

/// The values follow the rule that gives them.
pub fn rule_of_values()
    ensures rule { FollowRule }
{}

/// The rows of a load give the answer of each of its calls to the first attempt at its place, and
/// no other.
pub fn what_the_table_gives()
    ensures gives { TableGives }
{}

//! Laws of the definitions, which say nothing of code.

ghost use Rattle.ready_core.specs.Cores.{FaultsStay};

/// Once a core has met a fault, no settle makes it forget that.
pub fn faults_stay()
    ensures stay { FaultsStay }
{}

//! A law of the definitions, which says nothing of code.

ghost use Rattle.json_laws.specs.Laws.{TextsHoldNoNul};

/// The text that is written for data has no NUL, whatever the strings in it hold.
pub fn texts_hold_no_nul()
    ensures { TextsHoldNoNul }
{}

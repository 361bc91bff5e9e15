//! What a placeholder takes.

ghost use Rattle.std.specs.Prelude.{◌≡◌};
ghost use Rattle.wdl_typed.specs.Typing as spec;

use wdl_typed::Choice;
use wdl_value::Ty;

/// Whether there is a type, and a placeholder takes it.
pub fn takes_some(choice: &Choice, t: &Option<Ty>) -> bool
    ensures { result ≡ spec.takes_some choice.now t.now }
{
    match t {
        Some(t) => choice.takes(t),
        None => false,
    }
}

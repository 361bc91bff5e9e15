ghost use Rattle.std.specs.Prelude.{◌≡◌};
ghost use Rattle.wdl_same.specs.Words as spec;

use wdl_typed::Choice;
use wdl_value::{Func, Op};

/// Whether both are the same operator.
#[tactic(auto, unfolding(crate::specs::Words::same_op))]
pub fn same_op(o: Op, p: Op) -> bool
    ensures { result ≡ spec.same_op o p }
{
    o == p
}

/// Whether both are the same function.
#[tactic(auto, unfolding(crate::specs::Words::same_func))]
pub fn same_func(f: Func, g: Func) -> bool
    ensures { result ≡ spec.same_func f g }
{
    f == g
}

/// Whether both print a placeholder's value in the same way.
pub fn same_choice(a: &Choice, b: &Choice) -> bool
    ensures { result ≡ spec.same_choice a.now b.now }
{
    match (a, b) {
        (Choice::Plain, Choice::Plain) => true,
        (Choice::Sep(s), Choice::Sep(t)) | (Choice::Default(s), Choice::Default(t)) => s.same(t),
        (
            Choice::Both { yes, no },
            Choice::Both {
                yes: left,
                no: right,
            },
        ) => { yes.same(left) && no.same(right) }
        _ => false,
    }
}

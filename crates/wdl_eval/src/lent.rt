//! Values that are lent, so that a part of a value costs no copy of the whole.

ghost use Rattle.std.specs.Prelude.{◌≡◌, true};
ghost use Rattle.wdl_value.specs.declared.value.Value.{out-Value};
ghost use Rattle.wdl_typed.specs.Evaluation as spec;
ghost use Rattle.wdl_value.specs.Limits.{is_within};
ghost use Rattle.wdl_eval.specs.Found.{held, Offers};
ghost use Rattle.wdl_eval.specs.Meets.{Lends};
ghost use Rattle.wdl_eval.specs.Nodes.{setting_of, within};

use crate::fault::NodeFault;
use crate::outcome::offered;
use crate::parts::member_in;
use crate::setting::Setting;
use wdl_typed::TExpr;
use wdl_value::{Name, Value};

/// A value that is lent, or one that was made.
#[derive(Drop)]
pub enum Found<'a> {
    Lent(&'a Value),
    Made(Value),
}

impl Found<'_> {
    /// The value, lent or kept.
    pub fn get(&self) -> &Value
        ensures { result.now ≡ held self.now }
    {
        match self {
            Found::Lent(value) => *value,
            Found::Made(value) => value,
        }
    }
}

/// The member of a value that keeps the limits of values, as each of its parts then does: nothing
/// is measured.
fn member_lent<'s>(value: &'s Value, name: &Name) -> Result<&'s Value, NodeFault>
    requires within { is_within value.now ≡ true }
    ensures { Lends (within (spec.member_at name.now (out-Value value.now))) result }
{
    member_in(value, name)
}

/// The value of a literal, of a name, or of a member of such; other expressions have none to lend.
pub fn lent<'s, 'a>(e: &'s TExpr, setting: &Setting<'s, 'a>) -> Result<Option<&'s Value>, NodeFault>
    ensures { Offers (spec.value_met (setting_of setting.now) e.now) result }
{
    match e {
        TExpr::Lit(value) => Ok(Some(offered(value)?)),
        TExpr::Get(key) => Ok(Some(setting.env.value(key)?)),
        TExpr::Member(a, name) => {
            if let Some(value) = lent(a.get(), setting)? {
                return Ok(Some(member_lent(value, name)?));
            }
            Ok(None)
        }
        _ => Ok(None),
    }
}

//! A list of values that is made item by item and given up as soon as it passes a limit.

ghost use Rattle.std.specs.Prelude.{◌≡◌, ◌≤◌, ◌++◌, ◌∷◌, [], IfOk, IfErr};
ghost use Rattle.wdl_value.specs.Size.{size_list};
ghost use Rattle.wdl_value.specs.declared.value.Value.TheVariants as v;
ghost use Rattle.wdl_stdlib.specs.Gives.{IsPast};

use crate::fault::EvalFault;
use std::alloc::Global;
use wdl_value::{EvalCode, ITEM_LIMIT, Items, SIZE_LIMIT, Value, size};

/// The items so far, and no more than their size.
#[derive(Debug, Drop)]
pub struct Growing {
    pub items: Items<Value>,
    bytes: u64,
    ghost counted: { bytes ≤ size_list items },
}

impl Growing {
    /// A list without items.
    pub fn new(alloc: Global) -> Growing
        ensures { result.items ≡ [] }
    {
        Growing {
            items: Items::new(alloc),
            bytes: 0,
        }
    }

    /// Appends the value. It is refused where no list that begins with these items keeps the
    /// limits.
    #[tactic(auto, using(crate::proofs::Past::past))]
    pub fn with(self, item: Value) -> Result<Growing, EvalFault>
        ensures items { IfOk result (λ g. g.items ≡ self.items ++ item ∷ []) }
        ensures past { IfErr result (IsPast (self.items ++ item ∷ [])) }
    {
        let Growing { mut items, bytes } = self;
        if items.len() >= ITEM_LIMIT {
            return Err(EvalFault::Code(EvalCode::TooLarge));
        }
        let bytes = bytes.saturating_add(size(&item));
        if bytes >= SIZE_LIMIT {
            return Err(EvalFault::Code(EvalCode::TooLarge));
        }
        items.push(item)?;
        Ok(Growing { items, bytes })
    }

    /// The list as a value.
    pub fn into_value(self) -> Value
        ensures { result ≡ v.List self.items }
    {
        let Growing { items, bytes: _ } = self;
        Value::List(items)
    }
}

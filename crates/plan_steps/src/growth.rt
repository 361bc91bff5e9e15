//! What grows while the steps of a plan are done, and what they go over.

ghost use Rattle.std.specs.Prelude.{◌≡◌, []};
ghost use Rattle.value_net.specs.Nets.{IsSound, empty, view};

use plan_bodies::Entered;
use plan_layout::Layout;
use std::alloc::Global;
use value_net::ValueNet;
use wdl_typed::Checked;
use wdl_value::{Fault, Items, Text};

/// What was entered, the faults, and how many instances of statements there are.
#[derive(Drop)]
pub struct Growth {
    pub entered: Entered,
    pub faults: Items<Fault>,
    pub count: u64,
}

/// What a plan goes over.
#[derive(Drop)]
pub struct Ground<'a> {
    pub checked: &'a Checked,
    pub layout: &'a Layout,
    pub site: &'a Text,
}

impl Growth {
    /// Nothing.
    pub fn empty(alloc: Global) -> Growth
        ensures sound { IsSound result.entered.net }
        ensures net { view result.entered.net ≡ empty }
        ensures instances { result.entered.instances ≡ [] }
        ensures faults { result.faults ≡ [] }
        ensures count { result.count ≡ 0 }
    {
        let entered = Entered {
            net: ValueNet::new(alloc),
            instances: Items::new(alloc),
        };
        Growth {
            entered,
            faults: Items::new(alloc),
            count: 0,
        }
    }
}

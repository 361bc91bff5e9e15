//! What was entered: cells, steps, and the instances of bodies.

use plan_growth::{Instance, Rule};
use value_net::ValueNet;
use wdl_eval::Measured;
use wdl_value::Items;

/// The cells and steps of a plan. Each value is measured once, when its cell is set.
pub type Net = ValueNet<Measured, Rule>;

/// The cells and steps, and the instances of bodies that were entered.
#[derive(Drop)]
pub struct Entered {
    pub net: Net,
    pub instances: Items<Instance>,
}

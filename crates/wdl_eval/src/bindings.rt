ghost use Rattle.wdl_typed.specs.Evaluation as spec;
ghost use Rattle.wdl_typed.specs.Scope.{lookup as looked_up};
ghost use Rattle.wdl_eval.specs.Binds.{binds_in};
ghost use Rattle.wdl_eval.specs.Meets.{Lends};
ghost use Rattle.wdl_eval.specs.Nodes.{within};

use crate::env::lookup;
use crate::fault::NodeFault;
use crate::measured::Measured;
use crate::outcome::offered;
use std::marker::Model;
use wdl_names::{Index, Keyed};
use wdl_value::{Bind, Key, Value};

/// A name with its value, lent from where they are kept.
#[derive(Drop)]
pub struct LentBind<'a> {
    pub key: &'a Key,
    pub value: &'a Measured,
}

impl<'a> Model for LentBind<'a> {
    ghost use Rattle.wdl_value.specs.declared.env.Bind.{Bind};

    ghost Value = { Bind };

    ghost use Rattle.std.specs.Coded.{codes};
    ghost use Rattle.wdl_value.specs.contracts.env.Bind as bind;

    ghost coded = { Prim.hlevel (codes, bind.the_row.coded) };

    ghost view = { λ b. record { key = b.key.now; value = b.value.now } };
}

impl<'a> Keyed for LentBind<'a> {
    ghost keyed = { λ b. b.key };

    fn key(&self) -> &Key {
        self.key
    }
}

/// The names that an expression may use, with their values: an environment, or names that are lent
/// one by one.
#[derive(Drop)]
pub enum Bindings<'s, 'a> {
    Kept(&'s [Bind]),
    Lent(&'s Index<LentBind<'a>>),
}

fn kept_in<'s>(env: &'s [Bind], key: &Key) -> Result<&'s Value, NodeFault>
    ensures { Lends (within (spec.found (looked_up env.now key.now))) result }
{
    match lookup(env, key) {
        Some(value) => offered(value),
        None => Err(NodeFault::Wrong),
    }
}

fn lent_in<'s, 'a>(env: &'s Index<LentBind<'a>>, key: &Key) -> Result<&'s Value, NodeFault>
    ensures { Lends (within (spec.found (looked_up env.now key.now))) result }
{
    match env.find(key) {
        Some(bind) => bind.value.offered(),
        None => Err(NodeFault::Wrong),
    }
}

impl<'s, 'a> Bindings<'s, 'a> {
    /// The value of the first name of that key, where it keeps the limits of values. It takes no
    /// memory; among names that are lent its time is logarithmic in their number, and no value is
    /// measured.
    pub fn value(&self, key: &Key) -> Result<&'s Value, NodeFault>
        ensures { Lends (within (spec.found (looked_up (binds_in self.now) key.now))) result }
    {
        match self {
            Bindings::Kept(env) => kept_in(*env, key),
            Bindings::Lent(env) => lent_in(*env, key),
        }
    }
}

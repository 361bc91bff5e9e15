//! What stands in the places of references, and of members behind them.

ghost use Rattle.std.specs.Prelude.{◌≡◌};
ghost use Rattle.std.specs.Option.{option_copied};
ghost use Rattle.wdl_swaps.specs.Chains as chain;
ghost use Rattle.wdl_swaps.specs.Swaps as spec;

use crate::chain::{Chain, Hop};
use wdl_names::same_key;
use wdl_value::{Items, Key, Name};

/// A reference with the members behind it, and the chain that stands in its place.
#[derive(Debug, Drop)]
pub struct Swap {
    pub key: Key,
    pub path: Items<Name>,
    pub value: Chain,
}

/// Whether the hops are these members.
pub fn are_members(hops: &[Hop], members: &[Name]) -> bool
    ensures { result ≡ chain.are_members hops.now members.now }
{
    let mut left = members;
    for hop in hops {
        let [first, rest @ ..] = left else {
            return false;
        };
        let Hop::Member(name) = hop else {
            return false;
        };
        if !name.same(first) {
            return false;
        }
        left = rest;
    }
    left.is_empty()
}

/// What stands in the place of the reference with these hops behind it.
pub fn swap_at<'a>(swaps: &'a [Swap], key: &Key, hops: &[Hop]) -> Option<&'a Chain>
    ensures { option_copied result ≡ spec.swap_at swaps.now key.now hops.now }
{
    for swap in swaps {
        if same_key(&swap.key, key) && are_members(hops, swap.path.as_slice()) {
            return Some(&swap.value);
        }
    }
    None
}

//! The order in which a plan offers what is ready at once.

ghost use Rattle.std.specs.Prelude.{◌≡◌, ◌<◌};

use crate::running::{checked_of, no_inputs};
use scatter_plan::Plan;
use std::alloc::Global;
use std::marker::Brand;
use std::sync::ledger::{Blank, Ledger};
use std::test::Fail;
use wdl_task::Prepared;
use wdl_value::{Steps, Text, place_text};

/// Calls beside each other, with a scatter of two items and a condition among them.
const DOCUMENT: &str = "workflow w { call one scatter (i in range(2)) { \
call one as two { input: a = i } call bare } Int a = 1 call one as three { input: a = a } \
if (a == 1) { call one as four } call one as five }";

/// The calls of the body in the order of the document, and behind them those inside its blocks.
const WANTED: &str = "one three five scatter-0/0/two scatter-0/0/bare scatter-0/1/two \
scatter-0/1/bare if-0/four ";

/// The places of calls, each with a blank behind it.
fn places(alloc: Global, ready: &[Prepared]) -> Result<Text, Fail> {
    let mut out = Text::empty(alloc);
    for prepared in ready {
        let place = place_text(alloc, &prepared.request.place)?;
        out.push_str(place.as_str())?;
        out.push_str(" ")?;
    }
    Ok(out)
}

/// The places of the calls that a plan of a document offers before any answer.
fn offered<L: Ledger>(alloc: Global, document: &Text, blank: Blank) -> Result<Text, Fail>
    requires name { blank.name ≡ L.name }
    requires parts { blank.parts ≡ L.parts }
    requires some { 0 < blank.parts }
{
    let mut steps: Steps<L> = Steps::start(blank);
    let Some(checked) = checked_of(alloc, document.as_str())? else {
        return Ok(Text::empty(alloc));
    };
    let Some(_) = checked.main else {
        return Ok(Text::empty(alloc));
    };
    let inputs = no_inputs(alloc, &checked)?;
    let site = Text::new(alloc, "/site")?;
    let Ok(plan) = Plan::new(alloc, checked, inputs, site, &mut steps) else {
        return Ok(Text::empty(alloc));
    };
    places(alloc, plan.ready())
}

/// The same, by a counter that is opened for it.
fn offered_first(alloc: Global, document: &Text) -> Result<Text, Fail> {
    offered::<Brand>(alloc, document, Blank::new(1))
}

#[test]
fn what_is_ready_at_once_is_offered_in_order(rt: HostRuntime) -> Result<(), Fail> {
    let document = Text::new(rt.alloc(), DOCUMENT)?;
    let came = offered_first(rt.alloc(), &document)?;
    assert_eq!(rt; came.as_str(), WANTED);
    Ok(())
}

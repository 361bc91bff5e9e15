//! What blocks and calls need before their bodies are entered.

ghost use Rattle.std.specs.Prelude.{◌≡◌, ◌++◌, ◌∷◌, [], ℕ, Some, None, IfOk, OnOk, codes};
ghost use Rattle.wdl_base.specs.declared.place.Segment.TheVariants as segment;
ghost use Rattle.wdl_value.specs.Parts.{bool_in};
ghost use Rattle.wdl_typed.specs.Flow as flow;
ghost use Rattle.wdl_flow.specs.Views.{given_of};
ghost use Rattle.wdl_plain.specs.Views.{flowing_of, run_of, sight_of};
ghost use Rattle.wdl_plain.specs.Walk as spec;

use crate::flowing::{Flowing, fault_at, with_fault};
use crate::giving::missing;
use crate::ground::Ground;
use crate::known::Known;
use crate::sight::Sight;
use std::alloc::Global;
use wdl_flow::Yielded;
use wdl_typed::{Statement, TCall, TScatter};
use wdl_value::{
    EvalCode, Fault, Key, Name, NoMemory, Place, Segment, Text, Value, Why, copy_place,
};

/// Whether the value is true.
pub fn is_true(value: &Value) -> bool
    ensures { result ≡ bool_in value.now }
{
    match value {
        Value::Bool(b) => *b,
        _ => false,
    }
}

/// The names that a call gives out.
pub fn call_names<'a>(alloc: Global, call: &TCall, ground: &Ground<'a>) -> Result<Yielded, NoMemory>
    ensures { IfOk result (λ g. given_of g ≡ spec.call_names (run_of ground.now) call.now) }
{
    let mut given = Yielded::empty(alloc);
    given.add_call(alloc, call, ground.checked)?;
    Ok(given)
}

/// The names that the statements of a body give out.
pub fn body_names<'a>(
    alloc: Global,
    body: &[Statement],
    ground: &Ground<'a>,
) -> Result<Yielded, NoMemory>
    ensures { IfOk result (λ g. (depth : ℕ) → given_of g ≡ flow.body_names (spec.parts_of (run_of ground.now) depth body.now)) }
{
    let mut given = Yielded::empty(alloc);
    given.add_body(alloc, body, ground.checked)?;
    Ok(given)
}

/// The place of a segment below a place.
fn place_at(alloc: Global, place: &Place, segment: Segment) -> Result<Place, NoMemory>
    ensures { IfOk result (λ p. p ≡ place.now ++ segment ∷ []) }
{
    let mut place = copy_place(alloc, place)?;
    place.push(segment)?;
    Ok(place)
}

/// The place of a call below that of its body.
pub fn call_place(alloc: Global, place: &Place, name: &Name) -> Result<Place, NoMemory>
    ensures { IfOk result (λ p. p ≡ place.now ++ segment.Call name.now ∷ []) }
{
    let name = name.copy(alloc)?;
    place_at(alloc, place, Segment::Call(name))
}

/// A scatter over an array that has a fault: its names are missing.
pub fn failed_scatter(
    alloc: Global,
    scatter: &TScatter<Statement>,
    place: &Place,
    code: EvalCode,
    given: Yielded,
) -> Result<Flowing, NoMemory>
    ensures { IfOk result (λ f. flowing_of f ≡ flow.with_fault (flow.fault_at (place.now ++ segment.Scatter scatter.now.number ∷ []) scatter.now.item code) (flow.missing (given_of given))) }
{
    let place = place_at(alloc, place, Segment::Scatter(scatter.number))?;
    let fault = fault_at(alloc, &place, &scatter.item, code)?;
    with_fault(alloc, fault, missing(alloc, given)?)
}

fn if_fault(alloc: Global, number: u32, place: &Place, code: EvalCode) -> Result<Fault, NoMemory>
    ensures { IfOk result (λ f. f ≡ flow.fault_at (place.now ++ segment.If number ∷ []) (codes "if") code) }
{
    let place = place_at(alloc, place, Segment::If(number))?;
    let name = Text::from_plain(alloc, "if")?;
    Ok(Fault {
        place,
        name,
        why: Why::Code(code),
    })
}

/// A condition that has a fault: the names of its body are missing.
pub fn failed_if(
    alloc: Global,
    number: u32,
    place: &Place,
    code: EvalCode,
    given: Yielded,
) -> Result<Flowing, NoMemory>
    ensures { IfOk result (λ f. flowing_of f ≡ flow.with_fault (flow.fault_at (place.now ++ segment.If number ∷ []) (codes "if") code) (flow.missing (given_of given))) }
{
    let fault = if_fault(alloc, number, place, code)?;
    with_fault(alloc, fault, missing(alloc, given)?)
}

fn item_known(alloc: Global, name: &Name, item: &Value) -> Result<Known, NoMemory>
    ensures { IfOk result (λ k. k ≡ record { key = record { first = name.now; second = None }; value = Some item.now }) }
{
    let key = Key::plain(alloc, name)?;
    let value = item.copy(alloc)?;
    Ok(Known {
        key,
        value: Some(value),
    })
}

/// What the body of a scatter sees for an item.
pub fn enter_item(
    alloc: Global,
    number: u32,
    index: usize,
    name: &Name,
    item: &Value,
    sight: &mut Sight,
) -> Result<(), NoMemory>
    ensures { OnOk result (sight_of sight.new ≡ flow.item_sight (sight_of sight.old) number name.now index item.now) }
{
    let Ok(index) = u32::try_from(index) else {
        return Err(NoMemory);
    };
    sight.place.push(Segment::Scatter(number))?;
    sight.place.push(Segment::Index(index))?;
    sight.names.enter(item_known(alloc, name, item)?)?;
    Ok(())
}

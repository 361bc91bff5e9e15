use crate::notation::{inputs, push_declaration, statements};
use statement_order::{OrderFault, order, order_inputs};
use std::alloc::Global;
use std::test::Fail;
use wdl_typed::{Statement, TInput};
use wdl_value::{Items, NoMemory};

/// What is answered for a list.
#[derive(Drop)]
enum Found {
    /// The numbers of the members, in their order.
    Order(Vec<u32>),
    /// The number of one of those that stand in a circle.
    Circle(u32),
}

fn fault_found(fault: OrderFault) -> Result<Found, NoMemory> {
    match fault {
        OrderFault::Circular { span } => Ok(Found::Circle(span.start)),
        OrderFault::NoMemory => Err(NoMemory),
    }
}

fn statement_number(statement: &Statement) -> u32 {
    match statement {
        Statement::Decl(declaration) => declaration.span.start,
        Statement::Call(call) => call.span.start,
        Statement::Scatter(block) => block.span.start,
        Statement::If(block) => block.span.start,
    }
}

fn statement_numbers(alloc: Global, list: &[Statement]) -> Result<Vec<u32>, NoMemory> {
    let mut numbers = Vec::new(alloc);
    for statement in list {
        numbers.push(statement_number(statement))?;
    }
    Ok(numbers)
}

fn input_numbers(alloc: Global, list: &[TInput]) -> Result<Vec<u32>, NoMemory> {
    let mut numbers = Vec::new(alloc);
    for input in list {
        numbers.push(input.span.start)?;
    }
    Ok(numbers)
}

fn found_of(alloc: Global, list: Items<Statement>) -> Result<Found, NoMemory> {
    match order(alloc, list) {
        Ok(list) => Ok(Found::Order(statement_numbers(alloc, list.as_slice())?)),
        Err(fault) => fault_found(fault),
    }
}

fn found_of_inputs(alloc: Global, list: Items<TInput>) -> Result<Found, NoMemory> {
    match order_inputs(alloc, list) {
        Ok(list) => Ok(Found::Order(input_numbers(alloc, list.as_slice())?)),
        Err(fault) => fault_found(fault),
    }
}

fn is_among(numbers: &str, number: u32) -> bool {
    for other in numbers.split(' ') {
        if other.parse::<u32>() == Ok(number) {
            return true;
        }
    }
    false
}

/// Whether these are the numbers of the text, in its order.
fn are(found: &[u32], numbers: &str) -> bool {
    let mut left = found;
    for number in numbers.split(' ') {
        let [first, rest @ ..] = left else {
            return false;
        };
        if number.parse::<u32>() != Ok(*first) {
            return false;
        }
        left = rest;
    }
    left.is_empty()
}

/// Whether this is the order of these numbers, or `circle` with the numbers of its members, of
/// which the answer names one.
fn is(found: &Found, expected: &str) -> bool {
    match found {
        Found::Order(numbers) => are(numbers.as_slice(), expected),
        Found::Circle(number) => match expected.split_once(' ') {
            Some(("circle", members)) => is_among(members, *number),
            _ => false,
        },
    }
}

/// Orders of statements, and behind `inputs:` of inputs.
const ORDERS: &str = "\
a= b= c= -> 0 1 2|\
c=b b=a a= -> 2 1 0|\
a=d b= c= d= -> 1 2 3 0|\
b=q a= -> 0 1|\
c=a a= a= -> 1 2 0|\
c!d.out d! -> 1 0|\
c!;d d! -> 1 0|\
[ x=y,i ]i=xs y= xs= -> 1 2 0|\
[ x= y=x ]?c c= -> 1 0|\
z=y [ x= y=x ]?c c= -> 2 1 0|\
[ x=i ]i=xs xs= i= -> 1 0 2|\
[ [ x=w ]?c ]i=xs w= xs= c= -> 1 2 3 0|\
[ c!;d ]i= d! -> 1 0|\
inputs:b=a c a -> 1 2 0";

/// Lists that have no order.
const CIRCLES: &str = "\
a=b b=a -> circle 0 1|\
b= a=a -> circle 1|\
a=b b=c c=b -> circle 1 2|\
[ x=z ]?c z=x c= -> circle 0 1|\
[ x= ]?x -> circle 0|\
c!;d d!c.out -> circle 0 1|\
inputs:c b=a a=b -> circle 1 2";

fn found_in(alloc: Global, text: &str) -> Result<Found, Fail> {
    match text.strip_prefix("inputs:") {
        Some(text) => Ok(found_of_inputs(alloc, inputs(alloc, text)?)?),
        None => Ok(found_of(alloc, statements(alloc, text)?)?),
    }
}

/// The first case that is answered otherwise, or nothing.
fn first_wrong(alloc: Global, cases: &'static str) -> Result<&'static str, Fail> {
    for case in cases.split('|') {
        let (text, expected) = case.split_once(" -> ").ok_or("a case")?;
        if !is(&found_in(alloc, text)?, expected) {
            return Ok(case);
        }
    }
    Ok("")
}

#[test]
fn members_stand_after_what_they_need(rt: HostRuntime) -> Result<(), Fail> {
    assert_eq!(rt; first_wrong(rt.alloc(), ORDERS)?, "");
    Ok(())
}

#[test]
fn a_circle_is_refused_at_one_of_its_members(rt: HostRuntime) -> Result<(), Fail> {
    assert_eq!(rt; first_wrong(rt.alloc(), CIRCLES)?, "");
    Ok(())
}

/// That many declarations, of which each needs the next.
fn chain(alloc: Global, length: usize) -> Result<Items<Statement>, Fail> {
    let mut list = Items::new(alloc);
    for at in 0..length {
        let left = length - at;
        let needed = left - 1;
        let word = format!(in alloc; "a{left}=a{needed}")?;
        push_declaration(alloc, word.as_str(), &mut list)?;
    }
    Ok(list)
}

/// Whether these are the numbers below the count, from the greatest down.
fn fall_from(numbers: &[u32], count: u32) -> bool {
    let mut next = count;
    for number in numbers {
        next = next.saturating_sub(1);
        if *number != next {
            return false;
        }
    }
    next == 0
}

#[test]
fn a_long_chain_is_turned_round(rt: HostRuntime) -> Result<(), Fail> {
    let alloc = rt.alloc();
    let is_turned = match found_of(alloc, chain(alloc, 20_000)?)? {
        Found::Order(numbers) => numbers.len() == 20_000 && fall_from(numbers.as_slice(), 20_000),
        Found::Circle(_) => false,
    };
    assert!(rt; is_turned);
    Ok(())
}

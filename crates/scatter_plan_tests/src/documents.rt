//! Runs of documents, in several orders of their answers.

use crate::drafts::document;
use crate::numbers::order_of;
use crate::running::{Told, ended};
use std::alloc::Global;
use std::test::Fail;
use wdl_value::Text;

/// Rows: how many orders, how what each comes to begins, a document without its version, and its
/// answers: what is no success, as `PLACE ATTEMPT STATUS`, or the number that makes them up.
const ROWS: &str = "\
3 no outputs | workflow w { Int a = 1 Int b = a + 1 Int c = b / 0 Int d = b * 3 output { Int e = \
d Int f = c } } | ;\
3 { | workflow w { Int a = 1 Int b = a + 1 output { Int e = b } } | ;\
3 { | workflow w { input { Int n = 3 Int? m Int k = n + 1 } output { Int e = n + k Boolean d = \
defined(m) } } | ;\
3 { | workflow w { call one call one as two { input: a = one.r } call one as three { input: a = \
two.r + one.r } output { Int e = three.r } } | ;\
3 { | workflow w { call one call one as two { input: a = one.r } output { Int e = two.r } } | \
one 0 1, one 1 3, two 0 1;\
3 no outputs | workflow w { call one call one as two { input: a = one.r } output { Int e = two.r \
} } | one 0 1, one 1 1, one 2 1;\
3 no outputs | workflow w { call one call one as two after one call one as three { input: a = 1 \
/ 0 } output { Int e = two.r } } | ;\
3 { | workflow w { call one scatter (i in range(one.r)) { Int j = i + one.r call one as two { \
input: a = j } Int k = two.r } output { Array[Int] e = k Array[Int] f = two.r } } | ;\
3 { | workflow w { scatter (i in range(0)) { call one } call one as two after one output { \
Array[Int] e = one.r } } | ;\
3 { | workflow w { scatter (i in range(3)) { call one { input: a = i } } call one as two after \
one output { Array[Int] e = one.r Int f = two.r } } | one 0 1, scatter-0/1/one 0 1;\
3 { | workflow w { call one Boolean b = one.r > 0 if (b) { scatter (i in range(2)) { Int m = i \
scatter (j in [10, 20]) { Int q = i + j call one as two { input: a = q } } Array[Int] s = two.r \
} } output { Array[Array[Int]]? u = s Array[Int]? v = m } } | ;\
3 { | workflow w { call one if (one.r < 0) { call one as two Int y = 2 } if (one.r > 0) { call \
one as three Int z = three.r } call one as four after two call one as five after three output { \
Int? p = two.r Int? o = y Int? s = three.r Int? t = z } } | ;\
3 no outputs | workflow w { if (1 / 0 == 1) { Int y = 2 } scatter (i in [1 / 0]) { Int z = i } \
output { Int? p = y Array[Int] q = z } } | ;\
3 { | workflow w { call lib.inner call lib.inner as again { input: n = inner.e } output { Int e \
= again.e Array[Int] f = again.f } } | ;\
3 no outputs | workflow w { call lib.inner call one after inner output { Int e = inner.e } } | \
inner/scatter-0/1/one 0 1, inner/scatter-0/1/one 1 1, inner/scatter-0/1/one 2 1;\
3 { | workflow w { scatter (i in range(3)) { call lib.inner { input: n = i } if (i > 0) { Int g \
= inner.e call one as two { input: a = g } } } output { Array[Int] e = inner.e Array[Int?] f = \
two.r } } | ;\
120 { | workflow w { scatter (i in range(5)) { call one { input: a = i } } output { Array[Int] e \
= one.r } } | 3;\
1 past | workflow w { scatter (i in range(20001)) { call one } } | ;\
1 past | workflow w { call one scatter (i in range(one.r * 30000)) { Int a = i Int b = i \
Int c = i Int d = i Int e = i Int f = i Int g = i Int h = i Int j = i Int k = i Int l = i \
Int m = i } } | ";

/// How many documents are made up.
const MADE_UP: u64 = 300;

/// How many of them end with outputs, at least: the others have faults.
const ENDING: usize = 75;

fn note(out: &mut String, document: &Text, came: &Text) -> Result<(), Fail> {
    out.push_str(document.as_str())?;
    out.push_str(": ")?;
    out.push_str(came.as_str())?;
    out.push_str("\n")?;
    Ok(())
}

/// Whether a run came to nothing that differs, and to what begins so.
fn is_right(came: &Text, wanted: &str) -> bool {
    !came.as_str().starts_with('!') && came.as_str().starts_with(wanted)
}

/// Runs a document in so many orders. Adds a line for each run that does not come to what is
/// wanted, or to something else than the first. Answers whether the first ends with outputs.
fn compare(
    alloc: Global,
    out: &mut String,
    document: &Text,
    told: &Told,
    orders: u64,
    wanted: &str,
) -> Result<bool, Fail> {
    let first = ended(alloc, document, told, order_of(told.number))?;
    if !is_right(&first, wanted) {
        note(out, document, &first)?;
    }
    for k in 1..orders {
        let other = ended(alloc, document, told, order_of(told.number.wrapping_add(k)))?;
        if other.as_str() != first.as_str() {
            note(out, document, &other)?;
        }
    }
    Ok(first.as_str().starts_with('{'))
}

fn compare_row(alloc: Global, out: &mut String, row: &str) -> Result<(), Fail> {
    let (head, rest) = row.split_once(" | ").unwrap_or((row, ""));
    let (orders, wanted) = head.split_once(' ').unwrap_or((head, ""));
    let (document, answers) = rest.split_once(" | ").unwrap_or((rest, ""));
    let document = Text::new(alloc, document)?;
    let told = Told::new(alloc, answers)?;
    compare(alloc, out, &document, &told, orders.parse::<u64>()?, wanted)?;
    Ok(())
}

fn mistakes_in_rows(alloc: Global) -> Result<String, Fail> {
    let mut out = String::new(alloc);
    for row in ROWS.split(';') {
        compare_row(alloc, &mut out, row)?;
    }
    Ok(out)
}

fn compare_made_up(alloc: Global, out: &mut String, number: u64) -> Result<bool, Fail> {
    let document = Text::new(alloc, document(alloc, number)?.as_str())?;
    let rows = Text::empty(alloc);
    compare(alloc, out, &document, &Told { rows, number }, 2, "")
}

fn mistakes_in_made_up(alloc: Global) -> Result<String, Fail> {
    let mut out = String::new(alloc);
    let mut ending = 0_usize;
    for k in 0..MADE_UP {
        if compare_made_up(alloc, &mut out, k + 1)? {
            ending = ending.saturating_add(1);
        }
    }
    if ending < ENDING {
        out.push_str("few end")?;
    }
    Ok(out)
}

#[test]
fn a_plan_has_what_the_flow_has_after_each_answer(rt: HostRuntime) -> Result<(), Fail> {
    let found = mistakes_in_rows(rt.alloc())?;
    assert_eq!(rt; found.as_str(), "");
    Ok(())
}

#[test]
fn so_it_has_over_documents_that_are_made_up(rt: HostRuntime) -> Result<(), Fail> {
    let found = mistakes_in_made_up(rt.alloc())?;
    assert_eq!(rt; found.as_str(), "");
    Ok(())
}

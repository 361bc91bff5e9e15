//! Documents that are made up from numbers.

use crate::numbers::next;
use std::alloc::Global;
use std::test::Fail;

/// How a document begins. A comment of one name stands where statements may be put that use it.
const START: &str = "workflow w { input { Int d = 2 } call one as c0 { input: a = d } #d\n";

/// What may be put there. `P` stands for the name, and `N` for a number that no other rule has.
const RULES: &str = "Int nN = P + 1 #nN\n;\
Int nN = 12 / (P % 5) #nN\n;\
call one as cN { input: a = P } Int nN = cN.r #nN\n;\
call few as cN { input: a = P } Int nN = cN.r + cN.s #nN\n;\
call one as cN { input: a = P } call bare as bN after cN Int nN = P + bN.r #nN\n;\
call lib.inner as cN { input: n = P % 3 } Int nN = cN.e + length(cN.f) #nN\n;\
call lib.inner as cN { input: n = P % 3 } call bare as bN after cN Int nN = bN.r #nN\n;\
if (P % 2 == 0) { Int kN = P + 1 #kN\n} Int nN = select_first([kN, 1]) #nN\n;\
if (P > 3) { call one as cN { input: a = P } #P\n} Int nN = if defined(cN.r) then 3 else 1 #nN\n;\
scatter (iN in range(P % 3)) { Int kN = iN + P #kN\n} Int nN = length(kN) #nN\n;\
scatter (iN in [P, 2]) { call one as cN { input: a = iN } Int kN = cN.r #kN\n} \
Int nN = cN.r[0] + kN[1] #nN\n;\
scatter (iN in range(P % 4)) { #iN\n} call bare as bN after c0 Int nN = bN.r #nN\n";

/// How many rules there are.
const ALL: usize = 12;

/// A text with a rule at the first place for one, or at the last.
fn grown(
    alloc: Global,
    text: &str,
    rule: &str,
    number: u64,
    is_first: bool,
) -> Result<String, Fail> {
    let place = if is_first {
        text.split_once('#')
    } else {
        text.rsplit_once('#')
    };
    let (before, behind) = place.unwrap_or((text, ""));
    let (name, rest) = behind.split_once('\n').unwrap_or((behind, ""));
    let digits = format!(in alloc; "{number}")?;
    let rule = rule.replace(alloc, "P", name)?;
    let rule = rule.replace(alloc, "N", digits.as_str())?;
    Ok(format!(in alloc; "{before}{}{rest}", rule.as_str())?)
}

/// The text with an output: the name at the last place.
fn closed(alloc: Global, text: &str) -> Result<String, Fail> {
    let (_, behind) = text.rsplit_once('#').unwrap_or(("", text));
    let (name, _) = behind.split_once('\n').unwrap_or((behind, ""));
    Ok(format!(in alloc; "{text}output {{ Int o = {name} }} }}")?)
}

/// The document that a number makes: a workflow that four to eight rules give.
pub fn document(alloc: Global, number: u64) -> Result<String, Fail> {
    let mut text = format!(in alloc; "{START}")?;
    let mut seed = number;
    for k in 1..5 + number % 5 {
        seed = next(seed);
        let at = (seed / 65_536) as usize;
        let rule = RULES.split(';').nth(at % ALL).unwrap_or("");
        text = grown(alloc, text.as_str(), rule, k, at / ALL % 3 == 0)?;
    }
    closed(alloc, text.as_str())
}

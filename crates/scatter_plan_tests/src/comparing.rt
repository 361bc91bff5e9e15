//! Whether a plan has what the flow over a journal has.

use scatter_plan::Plan;
use wdl_plain::Flow;
use wdl_task::Prepared;
use wdl_value::{Entry, Env, Fault, Request, same_place, same_request, same_value};

fn same_fault(a: &Fault, b: &Fault) -> bool {
    same_place(a.place.as_slice(), b.place.as_slice()) && a.name.same(&b.name) && a.why == b.why
}

/// How often a fault stands among others.
fn count_of(fault: &Fault, faults: &[Fault]) -> usize {
    let mut count = 0_usize;
    for one in faults {
        if same_fault(one, fault) {
            count = count.saturating_add(1);
        }
    }
    count
}

/// Whether each fault stands as often in both.
fn same_faults(plan: &[Fault], flow: &[Fault]) -> bool {
    for fault in flow {
        if count_of(fault, plan) != count_of(fault, flow) {
            return false;
        }
    }
    plan.len() == flow.len()
}

fn is_answered(journal: &[Entry], request: &Request) -> bool {
    for entry in journal {
        if same_request(&entry.request, request) {
            return true;
        }
    }
    false
}

fn is_ready(ready: &[Prepared], request: &Request) -> bool {
    for prepared in ready {
        if same_request(&prepared.request, request) {
            return true;
        }
    }
    false
}

fn same_jobs(plan: &Plan, jobs: &[Request], journal: &[Entry]) -> bool {
    for job in jobs {
        if is_answered(journal, job) == is_ready(plan.ready(), job) {
            return false;
        }
    }
    plan.ready().len() + journal.len() == jobs.len()
}

fn same_env(a: &Env, b: &Env) -> bool {
    for k in 0..a.len() {
        let same = match (a.get(k), b.get(k)) {
            (Some(x), Some(y)) => x.key.first.same(&y.key.first) && same_value(&x.value, &y.value),
            _ => false,
        };
        if !same {
            return false;
        }
    }
    a.len() == b.len()
}

fn same_outputs(plan: Option<&Env>, flow: &Option<Env>) -> bool {
    match (plan, flow) {
        (None, None) => true,
        (Some(a), Some(b)) => same_env(a, b),
        _ => false,
    }
}

/// What differs; nothing where all is the same.
pub fn difference(plan: &Plan, flow: &Flow, journal: &[Entry]) -> &'static str {
    if !same_faults(plan.faults(), flow.faults.as_slice()) {
        return "!faults";
    }
    if !same_jobs(plan, flow.jobs.as_slice(), journal) {
        return "!jobs";
    }
    if plan.ready().len() != flow.waits.len() {
        return "!waits";
    }
    if !same_outputs(plan.outputs(), &flow.outputs) {
        return "!outputs";
    }
    ""
}

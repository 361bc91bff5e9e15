use crate::watch::Watch;
use ready_core::{Core, Job};
use std::alloc::Global;
use wdl_value::{Entry, Request, Text};
use work_desk::Progress;

/// Tells nobody of a run.
#[derive(Clone, Copy, Debug)]
pub struct Silent;

impl Progress for Silent {
    fn began(&mut self, _: &Job) {}

    fn ended(&mut self, _: &Entry) {}

    fn unlaunched(&mut self, _: &Request) {}

    fn kept(&mut self, _: &Entry) {}

    fn lapsed(&mut self, _: &Request) {}
}

impl Watch for Silent {
    fn start(&mut self) {}

    fn end(&mut self, _: Global, _: &Core, _: &Text) {}
}

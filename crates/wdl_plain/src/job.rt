use wdl_flow::Terms;
use wdl_value::Request;

/// A request of a flow, with the terms of its job.
#[derive(Debug, Drop)]
pub struct AskedJob {
    pub request: Request,
    pub terms: Terms,
}

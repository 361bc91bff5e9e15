//! Attributes of `runtime` with a slip in their name.

use crate::lint::{Lint, Warning};
use note_text::nearest_of;
use std::alloc::Global;
use wdl_ast::Word;
use wdl_value::NoMemory;

/// The attributes of WDL 1.1, and those that other runners take beside them.
const ATTRIBUTES: [&str; 26] = [
    "container",
    "docker",
    "cpu",
    "memory",
    "gpu",
    "disks",
    "maxRetries",
    "returnCodes",
    "continueOnReturnCode",
    "failOnStderr",
    "disk",
    "preemptible",
    "bootDiskSizeGb",
    "zones",
    "noAddress",
    "cpuPlatform",
    "gpuCount",
    "gpuType",
    "nvidiaDriverVersion",
    "queue",
    "queueArn",
    "time",
    "time_minutes",
    "runtime_minutes",
    "walltime",
    "partition",
];

/// The warning on the name of a runtime attribute.
pub fn near_attribute<'a>(alloc: Global, key: &'a Word) -> Result<Option<Warning<'a>>, NoMemory> {
    let name = key.text.as_str();
    if ATTRIBUTES.iter().any(|known| *known == name) {
        return Ok(None);
    }
    match nearest_of(alloc, name, &ATTRIBUTES)? {
        Some(known) => Ok(Some(Warning {
            span: key.span,
            lint: Lint::NearAttribute { key: name, known },
        })),
        None => Ok(None),
    }
}

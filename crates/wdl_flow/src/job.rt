ghost use Rattle.std.specs.Prelude.{◌≡◌, IfOk};

use std::alloc::Global;
use std::marker::Model;
use wdl_typed::Success;
use wdl_value::NoMemory;

/// On which terms a job is run: the statuses that are its successes, and how often it may be tried
/// again. Contracts see the statuses alone; the number is told to a person, and nothing that is
/// promised depends on it.
#[derive(Debug, Drop)]
pub struct Terms {
    successes: Success,
    retries: u32,
}

impl Model for Terms {
    ghost use Rattle.wdl_typed.specs.declared.success.Success.{Success};

    ghost Value = { Success };

    ghost view = { λ t. t.successes };
}

impl Terms {
    /// The terms of these statuses and this number.
    pub fn new(successes: Success, retries: u32) -> Terms
        ensures terms { result ≡ successes }
    {
        Terms { successes, retries }
    }

    /// A copy.
    pub fn copy(&self, alloc: Global) -> Result<Terms, NoMemory>
        ensures terms { IfOk result (λ t. t ≡ self.now) }
    {
        let successes = self.successes.copy(alloc)?;
        Ok(Terms::new(successes, self.retries))
    }

    /// The statuses that are successes.
    pub fn successes(&self) -> &Success
        ensures successes { result.now ≡ self.now }
    {
        &self.successes
    }

    /// How often the job may be tried again.
    pub fn retries(&self) -> u32 {
        self.retries
    }
}

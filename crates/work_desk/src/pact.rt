ghost use Rattle.std.specs.Prelude.{◌<◌, ℕ, Bool, false, ⊤};

use std::marker::{Brand, Model, PhantomData};
use std::sync::ledger::{Ledger, Share};

/// One run: its launcher's relations, what lapses, its number of workers and its two ledgers. It has no calls:
/// the value under a lock is known by its type alone, so that the type names the run.
pub trait Pact {
    ghost use Rattle.wdl_base.specs.declared.request.Request.{Request};
    ghost use Rattle.wdl_base.specs.declared.answer.Answer.{Answer};
    ghost use Rattle.wdl_base.specs.declared.entry.Entry.{Entry};

    /// The answers that the launcher gives for a request.
    ghost gives: { Request → Answer → Type 0 };

    /// The requests that the launcher may refuse.
    ghost refuses: { Request → Type 0 };

    /// The rows whose files may be others than those of which they speak.
    ghost lapses: { Entry → Bool };

    /// The number of workers.
    ghost workers: { ℕ };

    /// The name of the ledger of what was put on the desk.
    ghost put_name: { ℕ };

    /// How many parts that ledger has.
    ghost put_parts: { ℕ };

    /// The name of the ledger of what was collected from the desk.
    ghost collected_name: { ℕ };

    /// How many parts that ledger has.
    ghost collected_parts: { ℕ };
}

impl Pact for Brand {
    ghost gives = { λ _ _. ⊤ };

    ghost refuses = { λ _. ⊤ };

    ghost lapses = { λ _. false };

    ghost workers = { 0 };

    ghost put_name = { 0 };

    ghost put_parts = { 0 };

    ghost collected_name = { 0 };

    ghost collected_parts = { 0 };
}

/// The ledger of what was put on the desk.
pub struct PutOf<P> {
    of: PhantomData<P>,
}

impl<P: Pact> Ledger for PutOf<P> {
    ghost name = { P.put_name };

    ghost parts = { P.put_parts };
}

/// The ledger of what was collected from the desk.
pub struct CollectedOf<P> {
    of: PhantomData<P>,
}

impl<P: Pact> Ledger for CollectedOf<P> {
    ghost name = { P.collected_name };

    ghost parts = { P.collected_parts };
}

/// The whole shares of both ledgers. Contracts see them as their amounts.
#[derive(Drop)]
pub struct Shares<P: Pact> {
    pub(crate) put: Share<PutOf<P>>,
    pub(crate) collected: Share<CollectedOf<P>>,
}

impl<P: Pact> Model for Shares<P> {
    ghost use Rattle.work_desk.specs.Held.{Held, held, IsWhole};

    ghost Value = { Held };

    ghost view = { λ s. held s.put.amount s.collected.amount };

    ghost invariant = { λ s. IsWhole s.put.parts P.put_parts × IsWhole s.collected.parts P.collected_parts };
}

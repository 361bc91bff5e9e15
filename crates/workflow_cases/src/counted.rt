ghost use Rattle.std.specs.Prelude.{⊤};

use std::alloc::Global;
use std::sync::atomic::{AtomicUsize, Ordering};
use wdl_port::{LaunchFault, Launcher};
use wdl_value::{Answer, Request};

/// A launcher whose calls are counted. It tells nothing of its answers.
#[derive(Drop)]
pub(crate) struct Counted<L> {
    launcher: L,
    launches: AtomicUsize,
}

impl<L> Counted<L> {
    /// The launcher with the count 0.
    pub(crate) fn new(launcher: L) -> Counted<L> {
        Counted {
            launcher,
            launches: AtomicUsize::new(0),
        }
    }

    /// How often it was called.
    pub(crate) fn launches(&self) -> usize {
        self.launches.load(Ordering::SeqCst)
    }
}

impl<L: Launcher> Launcher for Counted<L> {
    ghost gives = { λ _ _ _. ⊤ };

    ghost refuses = { λ _ _. ⊤ };

    fn launch(&self, alloc: Global, request: &Request) -> Result<Answer, LaunchFault> {
        self.launches.fetch_add(1, Ordering::SeqCst);
        self.launcher.launch(alloc, request)
    }
}

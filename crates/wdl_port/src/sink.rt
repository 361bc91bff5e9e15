ghost use Rattle.std.specs.Prelude.{◌≡◌, ◌≤◌, ◌<◌, ℕ, List, Option, IfOk, OnErr, length};
ghost use Rattle.wdl_port.specs.Causes.{HasCause};
ghost use Rattle.wdl_port.specs.Told.{grown, taken};

use crate::fault::WriteFault;

/// Where bytes are written.
pub trait Sink {
    /// The bytes written so far, where the sink tells them.
    ghost told: { Self → Option (List ℕ) };

    /// How often it has failed.
    ghost faults: { Self → ℕ };

    /// Appends the first bytes of the piece, and says how many: at least one of a piece that is not
    /// empty. A fault comes only where the count of faults rose in this call, or stands at the last
    /// value of `u64`, and then nothing was appended. It takes no memory.
    fn write(&mut self, piece: &[u8]) -> Result<usize, WriteFault>
        ensures within { IfOk result (λ n. n ≤ length piece.now) }
        ensures some { IfOk result (λ n. 0 < length piece.now → 0 < n) }
        ensures bytes { told self.new ≡ grown (told self.old) (taken result piece.now) }
        ensures cause { HasCause (faults self.old) (faults self.new) result }
        ensures nothing { OnErr result (0 < length piece.now) };
}

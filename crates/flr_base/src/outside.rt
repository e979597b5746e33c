ghost use Rattle.std.specs.Prelude.{◌≡◌, ℕ, List, [], Option, IfOk};
ghost use Rattle.std.specs.Io.{ReadsAtMost, WritesAtMost};
ghost use Rattle.std.specs.Io.KnownBytes.{ReadConsumes, WriteAppends};
ghost use Rattle.flr_base.specs.Causes.{HasCause};

/// Reading or writing failed.
#[derive(Clone, Copy, Debug, PartialEq, Eq)]
pub struct Failed;

/// Where bytes come from.
pub trait Source {
    /// The bytes that are left, where the source tells them.
    ghost left: { Self → Option (List ℕ) };
    /// How often it has answered that it failed, up to 2^64 - 1, where the count stands still. What an
    /// end gets over by itself isn't counted.
    ghost faults: { Self → ℕ };

    /// Reads from the front of what is left, at most as many bytes as the buffer has. 0 for a buffer
    /// that isn't empty means the end. A failure leaves the bytes, and its fault is counted.
    fn read(&mut self, buf: &mut [u8]) -> Result<usize, Failed>
        ensures bound { ReadsAtMost result buf.new }
        ensures bytes { ReadConsumes (left self.old) (left self.new) result buf.new }
        ensures cause { HasCause (faults self.old) (faults self.new) result };
}

/// Where bytes go.
pub trait Sink {
    /// The bytes taken so far, where the sink tells them.
    ghost taken: { Self → Option (List ℕ) };
    /// How often it has answered that it failed, up to 2^64 - 1, where the count stands still. What an
    /// end gets over by itself isn't counted.
    ghost faults: { Self → ℕ };

    /// Takes a front of the piece, and nothing only of an empty piece. A failure takes nothing, and
    /// its fault is counted.
    fn write(&mut self, piece: &[u8]) -> Result<usize, Failed>
        ensures bound { WritesAtMost result piece.now }
        ensures bytes { WriteAppends (taken self.old) (taken self.new) result piece.now }
        ensures some { IfOk result (λ count. count ≡ 0 → piece.now ≡ []) }
        ensures cause { HasCause (faults self.old) (faults self.new) result };
}

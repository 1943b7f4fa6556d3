//! Sources and sinks of bytes.
ghost use Rattle.std.specs.Prelude.{◌≡◌, ℕ, ◌<◌, ◌≤◌, List, length, take, Option, ⊤, IfOk, OnErr};
ghost use Rattle.std.specs.declared.result.Result.{Result};
ghost use Rattle.ir_values.specs.Counts.{Rose};
ghost use Rattle.qir_ports.specs.Known.{Gives, Takes, IsAtEnd};

use thiserror::Error;

/// A read or a write failed, and moved no byte.
#[derive(Clone, Copy, Debug, PartialEq, Eq, Hash, Error)]
#[error("a read or a write failed")]
pub struct Failed;

/// What gives bytes.
///
/// A source may tell contracts which bytes it has left. One that tells them does so after each call,
/// and one that does not never does. It counts its faults from 0. The count never falls, and stands
/// still at `u64::MAX`. It rises where a call fails, and it may rise where one does not.
pub trait Source {
    /// The bytes that it has left, where it tells them.
    ghost left: { Self → Option (List ℕ) };

    /// How many faults it had.
    ghost faults: { Self → ℕ };

    /// Gives the next bytes at the front of `buf`, and answers how many. Into a buffer that is not
    /// empty it gives none only where none is left. What the rest of `buf` holds then is not said.
    /// [`Failed`] counts a fault, and takes no byte from those left.
    fn read(&mut self, buf: &mut [u8]) -> Result<usize, Failed>
        ensures within { IfOk result (λ n. n ≤ length buf.old) }
        ensures gives { IfOk result (λ n. Gives (left self.old) (take n buf.new) (left self.new)) }
        ensures none_at_end { IfOk result (λ n.
            n ≡ 0 → 0 < length buf.old → IsAtEnd (left self.old)) }
        ensures counts { OnErr result (Rose (faults self.old) (faults self.new)) }
        ensures keeps { OnErr result (left self.new ≡ left self.old) }
        ensures later { faults self.old ≤ faults self.new };
}

/// What takes bytes.
///
/// A sink may tell contracts which bytes it took. One that tells them does so after each call, and
/// one that does not never does. It counts its faults from 0. The count never falls, and stands still
/// at `u64::MAX`. It rises where a call fails, and it may rise where one does not.
pub trait Sink {
    ghost use Rattle.qir_ports.specs.declared.port.Failed.{Failed};

    /// The bytes that it took, where it tells them.
    ghost taken: { Self → Option (List ℕ) };

    /// How many faults it had.
    ghost faults: { Self → ℕ };

    /// What a write may do, beside what is said of every sink: the sink before it, the bytes that it is
    /// offered, its answer, and the sink after it. A sink that leaves it out may do anything.
    ghost may_write: { Self → List ℕ → Result ℕ Failed → Self → Type 0 } = { λ _ _ _ _. ⊤ };

    /// Takes the first of `bytes`, and answers how many: at least one, unless `bytes` is empty.
    /// [`Failed`] counts a fault, and takes none.
    fn write(&mut self, bytes: &[u8]) -> Result<usize, Failed>
        ensures within { IfOk result (λ n. n ≤ length bytes.now) }
        ensures some { IfOk result (λ n. 0 < length bytes.now → 0 < n) }
        ensures takes { IfOk result (λ n.
            Takes (taken self.old) (take n bytes.now) (taken self.new)) }
        ensures counts { OnErr result (Rose (faults self.old) (faults self.new)) }
        ensures keeps { OnErr result (taken self.new ≡ taken self.old) }
        ensures writes { may_write self.old bytes.now result self.new }
        ensures later { faults self.old ≤ faults self.new };
}

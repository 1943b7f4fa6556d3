//! Reading and writing whole texts.
ghost use Rattle.std.specs.Prelude.{◌≡◌, ◌+◌, ◌^◌, ◌<◌, ◌≤◌, [], length, take, vec_len, IfOk, OnOk, OnErr, IfErr};
ghost use Rattle.ir_values.specs.Counts.{Rose};
ghost use Rattle.qir_ports.specs.Known.{Gives, Takes, IsAtEnd, GivesAll, GivesTooMany, GivesUpTo};
ghost use Rattle.qir_ports.specs.Offers.{Offers, OffersToFailure};
ghost use Rattle.qir_ports.specs.declared.transfer.ReadError.TheVariants as error;

use crate::port::{Failed, Sink, Source};
use ir_values::{Bytes, Memory};
use std::alloc::Global;
use thiserror::Error;

/// How many bytes [`read_all`] asks for at once.
const PIECE: usize = 65536;

/// Why no text was read.
#[derive(Clone, Copy, Debug, PartialEq, Eq, Hash, Error)]
pub enum ReadError {
    /// A read failed.
    #[error("reading failed")]
    Failed,
    /// There are more bytes than the limit.
    #[error("the text is too long")]
    TooLong,
    /// There was no memory for the text.
    #[error("out of memory")]
    Memory,
}

impl From<Failed> for ReadError {
    ghost from_gives = { λ _ e. e ≡ error.Failed };

    fn from(_e: Failed) -> ReadError {
        ReadError::Failed
    }
}

impl From<Memory> for ReadError {
    ghost from_gives = { λ _ e. e ≡ error.Memory };

    fn from(_e: Memory) -> ReadError {
        ReadError::Memory
    }
}

/// A write failed after `written` bytes.
#[derive(Clone, Copy, Debug, PartialEq, Eq, Hash, Error)]
#[error("writing failed after {written} bytes")]
pub struct WriteStop {
    /// How many bytes were written.
    pub written: usize,
}

/// Reads all bytes that `s` has left, where they are at most `limit`.
///
/// - `TooLong` comes exactly where there are more. One more than `limit` bytes were then read.
/// - `Failed` comes only where a read failed, after at most `limit` bytes.
/// - `Memory` comes only where there was none, after at most `limit + 1` bytes.
pub fn read_all<S: Source>(alloc: Global, s: &mut S, limit: usize) -> Result<Bytes, ReadError>
    requires { limit < 2 ^ 32 }
    ensures ok { IfOk result (λ text. GivesAll (S.left s.old) text (S.left s.new)) }
    ensures within { IfOk result (λ text. length text ≤ limit) }
    ensures too_long { result ≡ Err ReadError.TooLong
        → GivesTooMany limit (S.left s.old) (S.left s.new) }
    ensures failed { result ≡ Err ReadError.Failed → Rose (S.faults s.old) (S.faults s.new) }
    ensures until_failed { result ≡ Err ReadError.Failed
        → GivesUpTo limit (S.left s.old) (S.left s.new) }
    ensures until_memory { result ≡ Err ReadError.Memory
        → GivesUpTo (limit + 1) (S.left s.old) (S.left s.new) }
    ensures later { S.faults s.old ≤ S.faults s.new }
{
    let mut buffer = zeros(alloc)?;
    let mut text = Bytes::new(alloc);
    while text.len() <= limit {
        let want = buffer.len().min(limit + 1 - text.len());
        let piece = next_piece(s, &mut buffer[..want])?;
        if piece.is_empty() {
            return Ok(text);
        }
        text.extend_from_slice(piece)?;
    }
    Err(ReadError::TooLong)
}

/// The bytes that one call of `s` gives, which stand in `buffer`.
fn next_piece<'a, S: Source>(s: &mut S, buffer: &'a mut [u8]) -> Result<&'a [u8], Failed>
    ensures within { IfOk result (λ piece. length piece.now ≤ length buffer.entry.now) }
    ensures gives { IfOk result (λ piece. Gives (S.left s.old) piece.now (S.left s.new)) }
    ensures none_at_end { IfOk result (λ piece. piece.now ≡ [] → 0 < length buffer.entry.now
        → IsAtEnd (S.left s.old)) }
    ensures counts { OnErr result (Rose (S.faults s.old) (S.faults s.new)) }
    ensures keeps { OnErr result (S.left s.new ≡ S.left s.old) }
    ensures later { S.faults s.old ≤ S.faults s.new }
{
    let n = s.read(buffer)?;
    Ok(&buffer[..n])
}

/// The buffer that is read into.
fn zeros(alloc: Global) -> Result<Vec<u8>, Memory>
    ensures { IfOk result (λ buffer. vec_len buffer ≡ PIECE) }
{
    Ok(vec![in alloc; 0; PIECE]?)
}

/// Writes all of `bytes` to `k`, and takes no memory. Each call is offered all that is not written yet,
/// and empty `bytes` make no call.
///
/// [`WriteStop`] comes where a write failed. Exactly the first `written` bytes were then written, and
/// they are not all.
pub fn write_all<K: Sink>(k: &mut K, bytes: &[u8]) -> Result<(), WriteStop>
    ensures ok { OnOk result (Takes (K.taken k.old) bytes.now (K.taken k.new)) }
    ensures failed { OnErr result (Rose (K.faults k.old) (K.faults k.new)) }
    ensures written { IfErr result (λ stop.
        Takes (K.taken k.old) (take stop.written bytes.now) (K.taken k.new)) }
    ensures not_all { IfErr result (λ stop. stop.written < length bytes.now) }
    ensures offers { OnOk result (Offers K.may_write k.old bytes.now (length bytes.now) k.new) }
    ensures offers_to_failure { IfErr result (λ stop.
        OffersToFailure K.may_write k.old bytes.now stop.written k.new) }
    ensures empty { bytes.now ≡ [] → k.new ≡ k.old }
    ensures later { K.faults k.old ≤ K.faults k.new }
{
    let mut written = 0;
    while written < bytes.len() {
        match k.write(&bytes[written..]) {
            Ok(n) => written += n,
            Err(Failed) => return Err(WriteStop { written }),
        }
    }
    Ok(())
}

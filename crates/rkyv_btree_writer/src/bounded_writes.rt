//! Writes that end at a position in 32 bits.
ghost use Rattle.std.specs.Prelude.{◌≡◌, ◌<◌, ◌≤◌, OnOk, IfOk, IfErr};
ghost use Rattle.rkyv_btree_portable.specs.Rounding.{round_up};
ghost use Rattle.rkyv_btree_writer.specs.Padding.{padding};
ghost use Rattle.rkyv_btree_writer.specs.Writing.{position, Appended, Wrote, Refused, Stopped, last_end};

use crate::fault::Fault;
use crate::place::Writer;

/// No write ends past this position.
pub const LAST_END: u64 = 4294967295;

/// Writes the bytes, if they end at a position in 32 bits.
///
/// # Errors
///
/// `PositionOverflow` if they don't, before anything is written, and `Writer` with the writer's own error.
pub fn put<W: Writer>(writer: &mut W, bytes: &[u8]) -> Result<(), Fault<W::Error>>
    ensures ok { OnOk result (Appended (W.state writer.old) bytes.now (W.state writer.new)) }
    ensures end { OnOk result (position (W.state writer.new) ≤ last_end) }
    ensures err { IfErr result (λ fault.
        (reaches : _) →
        Refused fault (W.state writer.old) (record { bytes = bytes.now; reaches = reaches })
        (W.state writer.new)) }
{
    let pos = writer.pos();
    if pos > LAST_END || bytes.len() as u64 > LAST_END - pos {
        return Err(Fault::PositionOverflow);
    }
    writer.write(bytes).map_err(Fault::Writer)
}

/// Writes zeros up to a multiple of an alignment, and returns that position.
///
/// # Errors
///
/// Those of `put`.
pub fn pad<W: Writer>(writer: &mut W, align: u32) -> Result<u64, Fault<W::Error>>
    requires positive { 0 < align }
    requires small { align ≤ 16 }
    ensures pos { IfOk result (λ pos. pos ≡ round_up (position (W.state writer.old)) align) }
    ensures end { IfOk result (λ pos. pos ≡ position (W.state writer.new)) }
    ensures ok { OnOk result
        (Wrote (W.state writer.old) (padding align (position (W.state writer.old)))
        (W.state writer.new)) }
    ensures err { IfErr result (λ fault.
        Stopped (W.state writer.old) (padding align (position (W.state writer.old))) fault
        (W.state writer.new)) }
{
    let pos = writer.pos();
    let past = (pos % align as u64) as usize;
    if past == 0 {
        return Ok(pos);
    }
    let count = align as usize - past;
    put(writer, &[0; 15][..count])?;
    Ok(pos + count as u64)
}

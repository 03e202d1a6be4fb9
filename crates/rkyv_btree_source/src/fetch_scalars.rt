//! Floating-point numbers and numbers of 128 bits that are brought from a source.
ghost use Rattle.std.specs.Prelude.{◌≡◌, ◌≤◌, ◌<◌, ◌+◌, List, ℕ, IfErr, IfOk, IsTrue, length};
ghost use Rattle.rkyv_btree_source.specs.Reads.{own_lengths};

use crate::fault::SourceFault;
use crate::fetch::{Fetch, fetch_own};
use crate::reader::Reader;
use crate::source::ReadAt;
use rkyv_btree_compound::floats::ArchivedFloat;
use rkyv_btree_compound::wide::ArchivedWide;
use rkyv_btree_portable::check::Scalar;

impl<F> Fetch for ArchivedFloat<F>
where
    ArchivedFloat<F>: Scalar,
{
    ghost lengths = { own_lengths ⟦<ArchivedFloat<F> as Scalar>⟧.form.plain.size };

    fn fetch<S: ReadAt>(
        own_bytes: &[u8],
        pos: u32,
        _reader: &mut Reader<S>,
        room: &mut [u8],
    ) -> Result<u32, SourceFault<S::Error>> {
        fetch_own::<ArchivedFloat<F>, S::Error>(own_bytes, pos, room)
    }
}

impl<N> Fetch for ArchivedWide<N>
where
    ArchivedWide<N>: Scalar,
{
    ghost lengths = { own_lengths ⟦<ArchivedWide<N> as Scalar>⟧.form.plain.size };

    fn fetch<S: ReadAt>(
        own_bytes: &[u8],
        pos: u32,
        _reader: &mut Reader<S>,
        room: &mut [u8],
    ) -> Result<u32, SourceFault<S::Error>> {
        fetch_own::<ArchivedWide<N>, S::Error>(own_bytes, pos, room)
    }
}

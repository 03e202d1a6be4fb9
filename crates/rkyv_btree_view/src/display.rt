//! Views in texts for users: numbers in decimal, characters and texts as they are.
ghost use Rattle.std.specs.Fmt.{styled_text};
ghost use Rattle.std.specs.Prelude.{Some};
ghost use Rattle.rkyv_btree_view.specs.View.{view_value};

use crate::native::ToNative;
use crate::view::View;
use rkyv_btree_portable::check::Scalar;
use rkyv_btree_portable::little_endian::LittleEndian;
use rkyv_btree_portable::scalars::ArchivedNonZeroU32;
use rkyv_btree_portable::text::ArchivedText;
use std::fmt;

impl<'a> fmt::Display for View<'a, ArchivedText> {
    ghost output = { λ view. Some (view_value view) };

    ghost styled_output = { λ view spec. Some (styled_text spec (view_value view)) };

    fn fmt<W: fmt::Write>(&self, f: &mut fmt::Formatter<W>) -> fmt::Result {
        f.pad(self.as_str())
    }
}

impl<'a, N: fmt::Display> fmt::Display for View<'a, LittleEndian<N>>
where
    LittleEndian<N>: Scalar + ToNative<Native = N>,
{
    ghost output = { λ view. N.output
        (⟦<LittleEndian<N> as ToNative>⟧.read_native view.buf.now view.pos) };

    ghost styled_output = { λ view spec. N.styled_output
        (⟦<LittleEndian<N> as ToNative>⟧.read_native view.buf.now view.pos) spec };

    fn fmt<W: fmt::Write>(&self, f: &mut fmt::Formatter<W>) -> fmt::Result {
        self.to_native().fmt(f)
    }
}

impl<'a> fmt::Display for View<'a, u8> {
    ghost output = { λ view. ⟦<u8 as fmt::Display>⟧.output (view_value view) };

    ghost styled_output = { λ view spec.
        ⟦<u8 as fmt::Display>⟧.styled_output (view_value view) spec };

    fn fmt<W: fmt::Write>(&self, f: &mut fmt::Formatter<W>) -> fmt::Result {
        self.to_native().fmt(f)
    }
}

impl<'a> fmt::Display for View<'a, i8> {
    ghost output = { λ view. ⟦<i8 as fmt::Display>⟧.output (view_value view) };

    ghost styled_output = { λ view spec.
        ⟦<i8 as fmt::Display>⟧.styled_output (view_value view) spec };

    fn fmt<W: fmt::Write>(&self, f: &mut fmt::Formatter<W>) -> fmt::Result {
        self.to_native().fmt(f)
    }
}

impl<'a> fmt::Display for View<'a, bool> {
    ghost output = { λ view. ⟦<bool as fmt::Display>⟧.output (view_value view) };

    ghost styled_output = { λ view spec.
        ⟦<bool as fmt::Display>⟧.styled_output (view_value view) spec };

    fn fmt<W: fmt::Write>(&self, f: &mut fmt::Formatter<W>) -> fmt::Result {
        self.to_native().fmt(f)
    }
}

impl<'a> fmt::Display for View<'a, ArchivedNonZeroU32> {
    ghost output = { λ view. ⟦<u32 as fmt::Display>⟧.output (view_value view) };

    ghost styled_output = { λ view spec.
        ⟦<u32 as fmt::Display>⟧.styled_output (view_value view) spec };

    fn fmt<W: fmt::Write>(&self, f: &mut fmt::Formatter<W>) -> fmt::Result {
        self.to_native().get().fmt(f)
    }
}

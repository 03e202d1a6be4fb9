//! Archived types whose values are written as text.
ghost use Rattle.std.specs.Prelude.{◌≡◌, ◌++◌, ℕ, IfNone, IfOk, IfSome, List, OnOk, string_bytes};
ghost use Rattle.std.specs.declared.cmp.Ordering.{Ordering as Comparison};
ghost use Rattle.btreekv_items.specs.Items.{SameValues, IsSpelledApart};
ghost use Rattle.btreekv_items.specs.declared.item.BytesStyle.{BytesStyle};

use rkyv_btree_archive::archive::{Archive, Serialize};
use rkyv_btree_portable::check::CheckBytes;
use rkyv_btree_typed::type_name::TypeName;
use rkyv_btree_view::compare::ViewOrd;
use rkyv_btree_view::view::View;
use rkyv_btree_writer::place::VecWriter;
use std::alloc::{AllocError, Global};
use std::cmp::Ordering;

/// How byte strings are written as text.
#[derive(Clone, Copy, Debug, PartialEq, Eq)]
pub enum BytesStyle {
    /// Two lowercase hexadecimal digits for each byte.
    Hexadecimal,
    /// Base64 of the standard alphabet, with padding.
    Base64,
}

/// An archived type whose values are written as text, and read from exactly the text that they are written as.
pub trait Item: CheckBytes + ViewOrd + TypeName {
    /// The native type that is archived.
    type Native: Archive<Archived = Self> + Serialize<VecWriter, Global> + Ord + Drop;

    /// The values, as the type's kind has them.
    ghost Value: { Type 0 };

    /// Which of them the type has: the numbers below 2 to the 32nd, say.
    ghost IsValue: { Value → Type 0 };

    /// The text of a value.
    ghost spelling: { BytesStyle → Value → List ℕ };

    /// The order of the values.
    ghost order: { Value → Value → Comparison };

    /// The value at a position of a buffer.
    ghost value_at: { List ℕ → ℕ → Value };

    /// What a native value means.
    ghost native_value: { Self.Native → Value };

    /// Appends the text of what a view reads. After an error a part of the text may have been appended.
    fn push_text(
        out: &mut String,
        style: BytesStyle,
        view: &View<'_, Self>,
    ) -> Result<(), AllocError>
        ensures { OnOk result (string_bytes out.new
            ≡ string_bytes out.old ++ spelling style (value_at view.now.buf.now view.now.pos)) };

    /// Returns the native value with this text, or `None` if no value has it.
    fn parse(
        alloc: Global,
        style: BytesStyle,
        text: &str,
    ) -> Result<Option<Self::Native>, AllocError>
        ensures text { IfOk result (λ found. IfSome found (λ native.
            spelling style (native_value native) ≡ text.now)) }
        ensures value { IfOk result (λ found. IfSome found (λ native.
            IsValue (native_value native))) }
        ensures none { IfOk result (λ found. IfNone found
            ((value : Value) → IsValue value → spelling style value ≡ text.now → ⊥)) };

    /// How a native value compares to what a view reads.
    fn compare_native(native: &Self::Native, view: &View<'_, Self>) -> Ordering
        ensures { result ≡ order (native_value native.now)
            (value_at view.now.buf.now view.now.pos) };

    // Different values have different texts.
    ghost apart: { IsSpelledApart IsValue spelling };

    ghost same_values: { SameValues Self.Native.archival Self.Portable.kind
        IsValue order value_at native_value Self.Native.cmp };
}

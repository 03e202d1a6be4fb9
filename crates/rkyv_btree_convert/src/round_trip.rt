//! What comes of values that are archived and made native again: these values.
ghost use Rattle.std.specs.Prelude.{IfSome, List, Option, map, option_map, string_bytes};
ghost use Rattle.std.specs.List.{All};
ghost use Rattle.std.specs.List.Sorted.{IsStrictlySortedBy};
ghost use Rattle.std.specs.Map.{keys_of};
ghost use Rattle.std.specs.Int.NonZero.{non_zero_u32_get};
ghost use Rattle.rkyv_btree_compound.specs.Arrays.{array_kind};
ghost use Rattle.rkyv_btree_compound.specs.Floats.{f32_kind, f64_kind};
ghost use Rattle.rkyv_btree_compound.specs.Option.{option_kind};
ghost use Rattle.rkyv_btree_compound.specs.Tuples.{tuple3_kind, tuple4_kind, tuple5_kind, tuple6_kind};
ghost use Rattle.rkyv_btree_compound.specs.Wide.{i128_kind, u128_kind};
ghost use Rattle.rkyv_btree_portable.specs.Entry.{entry_kind};
ghost use Rattle.rkyv_btree_verify.specs.Map.{map_kind};
ghost use Rattle.rkyv_btree_portable.specs.ByteStrings.{bytes_kind};
ghost use Rattle.rkyv_btree_portable.specs.NonZeros.{non_zero_i16_kind, non_zero_i32_kind, non_zero_i64_kind, non_zero_i8_kind};
ghost use Rattle.rkyv_btree_portable.specs.NonZeros.{non_zero_u16_kind, non_zero_u64_kind, non_zero_u8_kind};
ghost use Rattle.rkyv_btree_portable.specs.Scalars.{bool_kind, char_kind, i16_kind, i32_kind, i64_kind, i8_kind, non_zero_kind};
ghost use Rattle.rkyv_btree_portable.specs.Scalars.{u16_kind, u32_kind, u64_kind, u8_kind, unit_kind};
ghost use Rattle.rkyv_btree_format.specs.Units.{with_units};
ghost use Rattle.rkyv_btree_portable.specs.Text.{text_kind};
ghost use Rattle.rkyv_btree_convert.specs.Maps.{native_map, model_both};
ghost use Rattle.rkyv_btree_convert.specs.RoundTrip.{GivesBack, GivesItselfBack, IsGivenBack, both_mean, items_of};
ghost use Rattle.rkyv_btree_convert.specs.Sets.{native_set};

use crate::deserialize::Deserialize;
use crate::native_key::DeserializeKey;
use rkyv_btree_compound::array::ArchivedArray;
use rkyv_btree_compound::floats::{ArchivedF32, ArchivedF64};
use rkyv_btree_compound::option::ArchivedOption;
use rkyv_btree_compound::tuple::{ArchivedTuple3, ArchivedTuple4, ArchivedTuple5, ArchivedTuple6};
use rkyv_btree_compound::wide::{ArchivedI128, ArchivedU128};
use rkyv_btree_portable::byte_string::ArchivedBytes;
use rkyv_btree_portable::entry::Entry;
use rkyv_btree_portable::non_zeros::{
    ArchivedNonZeroI16, ArchivedNonZeroI32, ArchivedNonZeroI64, ArchivedNonZeroU16,
    ArchivedNonZeroU64,
};
use rkyv_btree_portable::numbers::{ArchivedU16, ArchivedU32, ArchivedU64};
use rkyv_btree_portable::scalars::{ArchivedChar, ArchivedNonZeroU32};
use rkyv_btree_portable::signed::{ArchivedI16, ArchivedI32, ArchivedI64};
use rkyv_btree_portable::text::ArchivedText;
use std::alloc::Global;
use std::num::{
    NonZeroI8, NonZeroI16, NonZeroI32, NonZeroI64, NonZeroU8, NonZeroU16, NonZeroU32, NonZeroU64,
};

/// What a number, a truth value, a character or a `()` means gives it back. Of floating-point numbers a NaN comes back as a NaN, and
/// all others bit for bit.
pub fn natives_are_given_back()
    ensures u8 { GivesItselfBack u8_kind ⟦<u8 as Deserialize<u8>>⟧.decoded }
    ensures u16 { GivesItselfBack u16_kind ⟦<ArchivedU16 as Deserialize<u16>>⟧.decoded }
    ensures u32 { GivesItselfBack u32_kind ⟦<ArchivedU32 as Deserialize<u32>>⟧.decoded }
    ensures u64 { GivesItselfBack u64_kind ⟦<ArchivedU64 as Deserialize<u64>>⟧.decoded }
    ensures u128 { GivesItselfBack u128_kind ⟦<ArchivedU128 as Deserialize<u128>>⟧.decoded }
    ensures i8 { GivesItselfBack i8_kind ⟦<i8 as Deserialize<i8>>⟧.decoded }
    ensures i16 { GivesItselfBack i16_kind ⟦<ArchivedI16 as Deserialize<i16>>⟧.decoded }
    ensures i32 { GivesItselfBack i32_kind ⟦<ArchivedI32 as Deserialize<i32>>⟧.decoded }
    ensures i64 { GivesItselfBack i64_kind ⟦<ArchivedI64 as Deserialize<i64>>⟧.decoded }
    ensures i128 { GivesItselfBack i128_kind ⟦<ArchivedI128 as Deserialize<i128>>⟧.decoded }
    ensures truths { GivesItselfBack bool_kind ⟦<bool as Deserialize<bool>>⟧.decoded }
    ensures units { GivesItselfBack unit_kind ⟦<() as Deserialize<()>>⟧.decoded }
    ensures chars { GivesItselfBack char_kind ⟦<ArchivedChar as Deserialize<char>>⟧.decoded }
    ensures f32 { GivesItselfBack f32_kind ⟦<ArchivedF32 as Deserialize<f32>>⟧.decoded }
    ensures f64 { GivesItselfBack f64_kind ⟦<ArchivedF64 as Deserialize<f64>>⟧.decoded }
    ensures non_zero { GivesBack non_zero_kind non_zero_u32_get
        ⟦<ArchivedNonZeroU32 as Deserialize<NonZeroU32>>⟧.decoded non_zero_u32_get }
{}

/// What a number other than 0 means gives it back.
pub fn non_zeros_are_given_back()
    ensures u8 { GivesItselfBack non_zero_u8_kind
        ⟦<NonZeroU8 as Deserialize<NonZeroU8>>⟧.decoded }
    ensures u16 { GivesItselfBack non_zero_u16_kind
        ⟦<ArchivedNonZeroU16 as Deserialize<NonZeroU16>>⟧.decoded }
    ensures u64 { GivesItselfBack non_zero_u64_kind
        ⟦<ArchivedNonZeroU64 as Deserialize<NonZeroU64>>⟧.decoded }
    ensures i8 { GivesItselfBack non_zero_i8_kind
        ⟦<NonZeroI8 as Deserialize<NonZeroI8>>⟧.decoded }
    ensures i16 { GivesItselfBack non_zero_i16_kind
        ⟦<ArchivedNonZeroI16 as Deserialize<NonZeroI16>>⟧.decoded }
    ensures i32 { GivesItselfBack non_zero_i32_kind
        ⟦<ArchivedNonZeroI32 as Deserialize<NonZeroI32>>⟧.decoded }
    ensures i64 { GivesItselfBack non_zero_i64_kind
        ⟦<ArchivedNonZeroI64 as Deserialize<NonZeroI64>>⟧.decoded }
{}

/// What a byte string means gives it back.
pub fn byte_strings_are_given_back()
    ensures { GivesBack bytes_kind (items_of {A = Global})
        ⟦<ArchivedBytes as Deserialize<Vec<u8>>>⟧.decoded items_of }
{}

/// An option is given back where its value is.
pub fn options_are_given_back<N: PartialEq + Drop, T: Deserialize<N>>()
    ensures { (value : N → T.kind.Value) (option : Option N)
        → IfSome option (IsGivenBack T.kind value T.decoded T.model)
        → IsGivenBack (option_kind T.kind) (option_map value)
        ⟦<ArchivedOption<T> as Deserialize<Option<N>>>⟧.decoded (option_map T.model) option }
{}

/// An array is given back where its elements are.
pub fn arrays_are_given_back<M: PartialEq + Drop, T: Deserialize<M>, const N: usize>()
    ensures { (value : M → T.kind.Value) (array : List M)
        → All (IsGivenBack T.kind value T.decoded T.model) array
        → IsGivenBack (array_kind T.kind N) (map value)
        ⟦<ArchivedArray<T, N> as Deserialize<[M; N]>>⟧.decoded (map T.model) array }
{}

/// What a text means gives the text back.
pub fn texts_are_given_back()
    ensures { GivesBack text_kind (string_bytes {Z = Global})
        ⟦<ArchivedText as Deserialize<String>>⟧.decoded string_bytes }
{}

/// A pair is given back where its key and its value are.
pub fn pairs_are_given_back<
    T: PartialEq + Drop,
    U: PartialEq,
    K: Deserialize<T>,
    V: Deserialize<U>,
>()
    ensures { (key : T → K.kind.Value) (value : U → V.kind.Value) (pair : T × U)
        → IsGivenBack K.kind key K.decoded K.model pair.0
        → IsGivenBack V.kind value V.decoded V.model pair.1
        → IsGivenBack {X = T × U} (entry_kind K.kind V.kind) (λ e. (key e.0, value e.1))
        ⟦<Entry<K, V> as Deserialize<(T, U)>>⟧.decoded (λ e. (K.model e.0, V.model e.1)) pair }
{}

/// A tuple of three is given back where its fields are.
pub fn tuples_are_given_back<
    T: PartialEq + Drop,
    U: PartialEq + Drop,
    W: PartialEq,
    A: Deserialize<T>,
    B: Deserialize<U>,
    C: Deserialize<W>,
>()
    ensures { (first : T → A.kind.Value) (second : U → B.kind.Value) (third : W → C.kind.Value)
        → (tuple : T × U × W)
        → IsGivenBack A.kind first A.decoded A.model tuple.0
        → IsGivenBack B.kind second B.decoded B.model tuple.1
        → IsGivenBack C.kind third C.decoded C.model tuple.2
        → IsGivenBack {X = T × U × W} (tuple3_kind A.kind B.kind C.kind)
        (λ x. ((first x.0, second x.1), third x.2))
        ⟦<ArchivedTuple3<A, B, C> as Deserialize<(T, U, W)>>⟧.decoded
        (λ x. ((A.model x.0, B.model x.1), C.model x.2)) tuple }
{}

/// A tuple of four is given back where its fields are.
pub fn tuples4_are_given_back<
    T: PartialEq + Drop,
    U: PartialEq + Drop,
    W: PartialEq + Drop,
    X: PartialEq,
    A: Deserialize<T>,
    B: Deserialize<U>,
    C: Deserialize<W>,
    D: Deserialize<X>,
>()
    ensures { (first : T → A.kind.Value)
        (second : U → B.kind.Value)
        (third : W → C.kind.Value)
        (fourth : X → D.kind.Value)
        → (tuple : T × U × W × X)
        → IsGivenBack A.kind first A.decoded A.model tuple.0
        → IsGivenBack B.kind second B.decoded B.model tuple.1
        → IsGivenBack C.kind third C.decoded C.model tuple.2
        → IsGivenBack D.kind fourth D.decoded D.model tuple.3
        → IsGivenBack {X = T × U × W × X} (tuple4_kind A.kind B.kind C.kind D.kind)
        (λ x. (((first x.0, second x.1), third x.2), fourth x.3))
        ⟦<ArchivedTuple4<A, B, C, D> as Deserialize<(T, U, W, X)>>⟧.decoded
        (λ x. (((A.model x.0, B.model x.1), C.model x.2), D.model x.3)) tuple }
{}

/// A tuple of five is given back where its fields are.
pub fn tuples5_are_given_back<
    T: PartialEq + Drop,
    U: PartialEq + Drop,
    W: PartialEq + Drop,
    X: PartialEq + Drop,
    Y: PartialEq,
    A: Deserialize<T>,
    B: Deserialize<U>,
    C: Deserialize<W>,
    D: Deserialize<X>,
    E: Deserialize<Y>,
>()
    ensures { (first : T → A.kind.Value)
        (second : U → B.kind.Value)
        (third : W → C.kind.Value)
        (fourth : X → D.kind.Value)
        (fifth : Y → E.kind.Value)
        → (tuple : T × U × W × X × Y)
        → IsGivenBack A.kind first A.decoded A.model tuple.0
        → IsGivenBack B.kind second B.decoded B.model tuple.1
        → IsGivenBack C.kind third C.decoded C.model tuple.2
        → IsGivenBack D.kind fourth D.decoded D.model tuple.3
        → IsGivenBack E.kind fifth E.decoded E.model tuple.4
        → IsGivenBack {X = T × U × W × X × Y} (tuple5_kind A.kind B.kind C.kind D.kind E.kind)
        (λ x. ((((first x.0, second x.1), third x.2), fourth x.3), fifth x.4))
        ⟦<ArchivedTuple5<A, B, C, D, E> as Deserialize<(T, U, W, X, Y)>>⟧.decoded
        (λ x. ((((A.model x.0, B.model x.1), C.model x.2), D.model x.3), E.model x.4)) tuple }
{}

/// A tuple of six is given back where its fields are.
pub fn tuples6_are_given_back<
    T: PartialEq + Drop,
    U: PartialEq + Drop,
    W: PartialEq + Drop,
    X: PartialEq + Drop,
    Y: PartialEq + Drop,
    Z: PartialEq,
    A: Deserialize<T>,
    B: Deserialize<U>,
    C: Deserialize<W>,
    D: Deserialize<X>,
    E: Deserialize<Y>,
    F: Deserialize<Z>,
>()
    ensures { (first : T → A.kind.Value)
        (second : U → B.kind.Value)
        (third : W → C.kind.Value)
        (fourth : X → D.kind.Value)
        (fifth : Y → E.kind.Value)
        (sixth : Z → F.kind.Value)
        → (tuple : T × U × W × X × Y × Z)
        → IsGivenBack A.kind first A.decoded A.model tuple.0
        → IsGivenBack B.kind second B.decoded B.model tuple.1
        → IsGivenBack C.kind third C.decoded C.model tuple.2
        → IsGivenBack D.kind fourth D.decoded D.model tuple.3
        → IsGivenBack E.kind fifth E.decoded E.model tuple.4
        → IsGivenBack F.kind sixth F.decoded F.model tuple.5
        → IsGivenBack {X = T × U × W × X × Y × Z} (tuple6_kind A.kind B.kind C.kind D.kind E.kind F.kind)
        (λ x. (((((first x.0, second x.1), third x.2), fourth x.3), fifth x.4), sixth x.5))
        ⟦<ArchivedTuple6<A, B, C, D, E, F> as Deserialize<(T, U, W, X, Y, Z)>>⟧.decoded
        (λ x. (((((A.model x.0, B.model x.1), C.model x.2), D.model x.3), E.model x.4), F.model x.5)) tuple }
{}

/// A map is given back, all its entries in order, where its keys ascend, as those of every native map do, and each key
/// and each value is. So maps of maps are, and maps of sets.
pub fn maps_are_given_back<
    T: Ord + Drop,
    U: PartialEq + Drop,
    K: DeserializeKey<T>,
    V: Deserialize<U>,
    const E: usize,
>()
    ensures { (key : T → K.kind.Value) (value : U → V.kind.Value) (entries : List (T × U))
        → IsStrictlySortedBy T.cmp (keys_of entries)
        → All (λ e. IsGivenBack K.kind key K.decoded K.model e.0
        × IsGivenBack V.kind value V.decoded V.model e.1) entries
        → IsGivenBack (map_kind K.kind V.kind E) (both_mean key value)
        (native_map K.kind V.kind E K.decoded V.decoded K.model_order)
        (model_both K.model V.model) entries }
{}

/// A set is given back, all its keys in order, where these ascend, as those of every native set do, and each key is.
pub fn sets_are_given_back<T: Ord + Drop, K: DeserializeKey<T>, const E: usize>()
    ensures { (key : T → K.kind.Value) (keys : List T)
        → IsStrictlySortedBy T.cmp keys
        → All (IsGivenBack K.kind key K.decoded K.model) keys
        → IsGivenBack (map_kind K.kind unit_kind E)
        (λ ks. both_mean key (λ unit. unit) (with_units ks))
        (native_set K.kind E K.decoded K.model_order) (map K.model) keys }
{}

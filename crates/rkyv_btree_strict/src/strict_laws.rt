//! Laws of maps and sets whose keys increase. Each is an empty function: a call of it brings its clauses into scope.
ghost use Rattle.std.specs.Int.NonZero.{non_zero_u32_get};
ghost use Rattle.std.specs.List.Sorted.{IsStrictlySortedBy};
ghost use Rattle.std.specs.Map.{keys_of};
ghost use Rattle.std.specs.Prelude.{◌≡◌, ℕ, List, map, option_map, string_bytes};
ghost use Rattle.rkyv_btree_compound.specs.Arrays.{array_kind};
ghost use Rattle.rkyv_btree_compound.specs.Floats.{f32_kind, f64_kind};
ghost use Rattle.rkyv_btree_compound.specs.Option.{option_kind};
ghost use Rattle.rkyv_btree_compound.specs.Tuples.{tuple3_kind, tuple4_kind, tuple5_kind, tuple6_kind};
ghost use Rattle.rkyv_btree_compound.specs.Wide.{i128_kind, u128_kind};
ghost use Rattle.rkyv_btree_portable.specs.Entry.{entry_kind};
ghost use Rattle.rkyv_btree_portable.specs.ByteStrings.{bytes_kind};
ghost use Rattle.rkyv_btree_portable.specs.NonZeros.{non_zero_i16_kind, non_zero_i32_kind, non_zero_i64_kind, non_zero_i8_kind};
ghost use Rattle.rkyv_btree_portable.specs.NonZeros.{non_zero_u16_kind, non_zero_u64_kind, non_zero_u8_kind};
ghost use Rattle.rkyv_btree_portable.specs.Scalars.{bool_kind, char_kind, i16_kind, i32_kind, i64_kind, i8_kind, non_zero_kind};
ghost use Rattle.rkyv_btree_portable.specs.Scalars.{u16_kind, u32_kind, u64_kind, u8_kind, unit_kind};
ghost use Rattle.rkyv_btree_portable.specs.Text.{text_kind};
ghost use Rattle.rkyv_btree_convert.specs.RoundTrip.{both_mean, items_of};
ghost use Rattle.rkyv_btree_convert.specs.StdMaps.{OrdersAlike};
ghost use Rattle.rkyv_btree_format.specs.Increasing.{Increasing, EachIsGreater, IsOutOfOrder};
ghost use Rattle.rkyv_btree_strict.specs.Stays.{PutsKeepStrict, SetsKeepStrict, VisitsKeepStrict};

use rkyv_btree_portable::check::Portable;
use rkyv_btree_portable::in_place::InPlace;
use rkyv_btree_seal::lent_key::LentKey;
use rkyv_btree_seal::seal::Seal;
use rkyv_btree_view::compare::ViewOrd;
use std::cmp::OrderedFloat;
use std::num::{
    NonZeroI8, NonZeroI16, NonZeroI32, NonZeroI64, NonZeroU8, NonZeroU16, NonZeroU32, NonZeroU64,
};
use std::ops::ControlFlow;

/// States that keys increase exactly if each is greater than the key before it, and that otherwise there is one first entry out
/// of order.
pub fn neighbours_decide_order<K: ViewOrd, V: Portable>()
    ensures each { (m : List (K.kind.Value × V.kind.Value)) →
        Increasing K.kind.order m → EachIsGreater K.kind.order m }
    ensures all { (m : List (K.kind.Value × V.kind.Value)) →
        EachIsGreater K.kind.order m → Increasing K.kind.order m }
    ensures never_both { (m : List (K.kind.Value × V.kind.Value)) (index : ℕ) →
        Increasing K.kind.order m → ¬ IsOutOfOrder K.kind.order m index }
    ensures one_index { (m : List (K.kind.Value × V.kind.Value)) (i j : ℕ) →
        IsOutOfOrder K.kind.order m i → IsOutOfOrder K.kind.order m j → i ≡ j }
{}

/// States that what the entries of a std map mean has increasing keys, if keys are ordered as what they mean. So of the keys of
/// a std set.
pub fn std_maps_are_increasing<T: Ord, U, K: Portable, V: Portable>()
    ensures maps { (key : T → K.kind.Value) (value : U → V.kind.Value) (m : List (T × U)) →
        OrdersAlike T.cmp K.kind.order key → IsStrictlySortedBy T.cmp (keys_of m) →
        Increasing K.kind.order (both_mean key value m) }
    ensures sets { (key : T → K.kind.Value) (ks : List T) →
        OrdersAlike T.cmp K.kind.order key → IsStrictlySortedBy T.cmp ks →
        IsStrictlySortedBy K.kind.order (map key ks) }
{}

/// States that numbers, truth values, characters, `()` and text are ordered as what they mean.
pub fn natives_are_ordered_alike()
    ensures u8 { OrdersAlike ⟦<u8 as Ord>⟧.cmp u8_kind.order (λ n. n) }
    ensures u16 { OrdersAlike ⟦<u16 as Ord>⟧.cmp u16_kind.order (λ n. n) }
    ensures u32 { OrdersAlike ⟦<u32 as Ord>⟧.cmp u32_kind.order (λ n. n) }
    ensures u64 { OrdersAlike ⟦<u64 as Ord>⟧.cmp u64_kind.order (λ n. n) }
    ensures i8 { OrdersAlike ⟦<i8 as Ord>⟧.cmp i8_kind.order (λ n. n) }
    ensures i16 { OrdersAlike ⟦<i16 as Ord>⟧.cmp i16_kind.order (λ n. n) }
    ensures i32 { OrdersAlike ⟦<i32 as Ord>⟧.cmp i32_kind.order (λ n. n) }
    ensures i64 { OrdersAlike ⟦<i64 as Ord>⟧.cmp i64_kind.order (λ n. n) }
    ensures u128 { OrdersAlike ⟦<u128 as Ord>⟧.cmp u128_kind.order (λ n. n) }
    ensures i128 { OrdersAlike ⟦<i128 as Ord>⟧.cmp i128_kind.order (λ n. n) }
    ensures truths { OrdersAlike ⟦<bool as Ord>⟧.cmp bool_kind.order (λ b. b) }
    ensures units { OrdersAlike ⟦<() as Ord>⟧.cmp unit_kind.order (λ u. u) }
    ensures chars { OrdersAlike ⟦<char as Ord>⟧.cmp char_kind.order (λ c. c) }
    ensures non_zero { OrdersAlike ⟦<NonZeroU32 as Ord>⟧.cmp non_zero_kind.order non_zero_u32_get }
    ensures texts { OrdersAlike ⟦<String as Ord>⟧.cmp text_kind.order string_bytes }
{}

/// States that numbers other than 0 are ordered as what they mean.
pub fn non_zeros_are_ordered_alike()
    ensures u8 { OrdersAlike ⟦<NonZeroU8 as Ord>⟧.cmp non_zero_u8_kind.order (λ n. n) }
    ensures u16 { OrdersAlike ⟦<NonZeroU16 as Ord>⟧.cmp non_zero_u16_kind.order (λ n. n) }
    ensures u64 { OrdersAlike ⟦<NonZeroU64 as Ord>⟧.cmp non_zero_u64_kind.order (λ n. n) }
    ensures i8 { OrdersAlike ⟦<NonZeroI8 as Ord>⟧.cmp non_zero_i8_kind.order (λ n. n) }
    ensures i16 { OrdersAlike ⟦<NonZeroI16 as Ord>⟧.cmp non_zero_i16_kind.order (λ n. n) }
    ensures i32 { OrdersAlike ⟦<NonZeroI32 as Ord>⟧.cmp non_zero_i32_kind.order (λ n. n) }
    ensures i64 { OrdersAlike ⟦<NonZeroI64 as Ord>⟧.cmp non_zero_i64_kind.order (λ n. n) }
{}

/// States that byte strings are ordered as what they mean.
pub fn byte_strings_are_ordered_alike()
    ensures { OrdersAlike ⟦<Vec<u8> as Ord>⟧.cmp bytes_kind.order items_of }
{}

/// States that options are ordered as what they mean, if their values are.
pub fn options_are_ordered_alike<N: Ord, T: Portable>()
    ensures { (value : N → T.kind.Value) → OrdersAlike N.cmp T.kind.order value →
        OrdersAlike ⟦<Option<N> as Ord>⟧.cmp (option_kind T.kind).order (option_map value) }
{}

/// States that arrays are ordered as what they mean, if their elements are.
pub fn arrays_are_ordered_alike<M: Ord, T: Portable, const N: usize>()
    ensures { (value : M → T.kind.Value) → OrdersAlike M.cmp T.kind.order value →
        OrdersAlike ⟦<[M; N] as Ord>⟧.cmp (array_kind T.kind N).order (map value) }
{}

/// States that pairs are ordered as what they mean, if their parts are.
pub fn pairs_are_ordered_alike<S: Ord, T: Ord, K: Portable, V: Portable>()
    ensures { (key : S → K.kind.Value) (value : T → V.kind.Value) →
        OrdersAlike S.cmp K.kind.order key → OrdersAlike T.cmp V.kind.order value →
        OrdersAlike ⟦<(S, T) as Ord>⟧.cmp (entry_kind K.kind V.kind).order
        (λ e. (key e.0, value e.1)) }
{}

/// States that floating-point numbers in an `OrderedFloat` are ordered as what they mean.
pub fn floats_are_ordered_alike()
    ensures f32 { OrdersAlike ⟦<OrderedFloat<f32> as Ord>⟧.cmp f32_kind.order (λ x. x.0) }
    ensures f64 { OrdersAlike ⟦<OrderedFloat<f64> as Ord>⟧.cmp f64_kind.order (λ x. x.0) }
{}

/// States that tuples of three are ordered as what they mean, if their fields are.
pub fn tuples_are_ordered_alike<S: Ord, T: Ord, U: Ord, A: Portable, B: Portable, C: Portable>()
    ensures { (first : S → A.kind.Value) (second : T → B.kind.Value) (third : U → C.kind.Value) →
        OrdersAlike S.cmp A.kind.order first → OrdersAlike T.cmp B.kind.order second →
        OrdersAlike U.cmp C.kind.order third →
        OrdersAlike ⟦<(S, T, U) as Ord>⟧.cmp (tuple3_kind A.kind B.kind C.kind).order
        (λ x. ((first x.0, second x.1), third x.2)) }
{}

/// States that tuples of four are ordered as what they mean, if their fields are.
pub fn tuples4_are_ordered_alike<
    S: Ord,
    T: Ord,
    U: Ord,
    V: Ord,
    A: Portable,
    B: Portable,
    C: Portable,
    D: Portable,
>()
    ensures { (first : S → A.kind.Value)
        (second : T → B.kind.Value)
        (third : U → C.kind.Value)
        (fourth : V → D.kind.Value) →
        OrdersAlike S.cmp A.kind.order first →
        OrdersAlike T.cmp B.kind.order second →
        OrdersAlike U.cmp C.kind.order third →
        OrdersAlike V.cmp D.kind.order fourth →
        OrdersAlike ⟦<(S, T, U, V) as Ord>⟧.cmp
        (tuple4_kind A.kind B.kind C.kind D.kind).order
        (λ x. (((first x.0, second x.1), third x.2), fourth x.3)) }
{}

/// States that tuples of five are ordered as what they mean, if their fields are.
pub fn tuples5_are_ordered_alike<
    S: Ord,
    T: Ord,
    U: Ord,
    V: Ord,
    W: Ord,
    A: Portable,
    B: Portable,
    C: Portable,
    D: Portable,
    E: Portable,
>()
    ensures { (first : S → A.kind.Value)
        (second : T → B.kind.Value)
        (third : U → C.kind.Value)
        (fourth : V → D.kind.Value)
        (fifth : W → E.kind.Value) →
        OrdersAlike S.cmp A.kind.order first →
        OrdersAlike T.cmp B.kind.order second →
        OrdersAlike U.cmp C.kind.order third →
        OrdersAlike V.cmp D.kind.order fourth →
        OrdersAlike W.cmp E.kind.order fifth →
        OrdersAlike ⟦<(S, T, U, V, W) as Ord>⟧.cmp
        (tuple5_kind A.kind B.kind C.kind D.kind E.kind).order
        (λ x. ((((first x.0, second x.1), third x.2), fourth x.3), fifth x.4)) }
{}

/// States that tuples of six are ordered as what they mean, if their fields are.
pub fn tuples6_are_ordered_alike<
    S: Ord,
    T: Ord,
    U: Ord,
    V: Ord,
    W: Ord,
    X: Ord,
    A: Portable,
    B: Portable,
    C: Portable,
    D: Portable,
    E: Portable,
    F: Portable,
>()
    ensures { (first : S → A.kind.Value)
        (second : T → B.kind.Value)
        (third : U → C.kind.Value)
        (fourth : V → D.kind.Value)
        (fifth : W → E.kind.Value)
        (sixth : X → F.kind.Value) →
        OrdersAlike S.cmp A.kind.order first →
        OrdersAlike T.cmp B.kind.order second →
        OrdersAlike U.cmp C.kind.order third →
        OrdersAlike V.cmp D.kind.order fourth →
        OrdersAlike W.cmp E.kind.order fifth →
        OrdersAlike X.cmp F.kind.order sixth →
        OrdersAlike ⟦<(S, T, U, V, W, X) as Ord>⟧.cmp
        (tuple6_kind A.kind B.kind C.kind D.kind E.kind F.kind).order
        (λ x. (((((first x.0, second x.1), third x.2), fourth x.3), fifth x.4), sixth x.5)) }
{}

/// States that a write over one value, by a seal, a cursor or a call that sets it, keeps the keys of a strict map, so the map
/// is still strict.
pub fn writes_keep_strict_maps<K: Portable, V: Portable, const E: usize>()
    ensures puts { PutsKeepStrict K.kind V.kind E }
    ensures sets { SetsKeepStrict K.kind V.kind E }
{}

/// States the same of visits that write.
pub fn visits_keep_strict_maps<
    K: Portable,
    V: InPlace,
    T,
    F: FnMut(LentKey<'_, K>, &mut Seal<'_, V>) -> ControlFlow<T, ()>,
    const E: usize,
>()
    ensures { VisitsKeepStrict K.kind V.kind E (λ g k s r t h. F.step g k s r t h) }
{}

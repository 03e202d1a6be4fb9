//! Archived B-trees, read in place: what a program names that reads archives. It has no code of its own.
#![tactic(auto)]

pub use rkyv_btree_base as base;
pub use rkyv_btree_view::entry_view;

/// Arrays, read in place.
pub mod array {
    pub use rkyv_btree_compound::array_view::{ViewArray, element};
}

/// Comparisons of views by what they read.
pub mod compare {
    pub use rkyv_btree_view::compare::{ViewEq, ViewHash, ViewOrd};
}

/// Comparisons of views with native values: their order, by which keys are looked up, and their equality.
pub mod compare_native {
    pub use rkyv_btree_view::compare_native::{CompareWith, SameAs};
    pub use rkyv_btree_walk::search::Compared;
}

/// Cursors along the entries of a map, whose values they can write.
pub mod cursor {
    pub use rkyv_btree_seal::cursor::{IterSeal, ValuesSeal};
    pub use rkyv_btree_seal::range_cursor::RangeSeal;
    pub use rkyv_btree_walk::range_walk::RangeWalk;
}

/// Views in messages, as what they read.
pub mod debug {
    pub use rkyv_btree_view::debug::ViewDebug;
}

/// Native values from views.
pub mod deserialize {
    pub use rkyv_btree_convert::deserialize::{Deserialize, DeserializeFault};
    pub use rkyv_btree_convert::deserialize_native::DeserializeNative;
    pub use rkyv_btree_convert::native_key::DeserializeKey;
}

/// The archived types that keys and values of maps have.
pub mod entry_type {
    pub use rkyv_btree_convert::entry_type::EntryType;
}

/// Lookups of many keys in a map or a set, in one iterator.
pub mod get_many {
    pub use rkyv_btree_view::get_many::{KeyLookups, Lookups};
}

/// Iterators over the entries of a map.
pub mod iter {
    pub use rkyv_btree_view::iter::Iter;
}

/// Iterators over the keys and over the values of a map.
pub mod keys {
    pub use rkyv_btree_view::keys::{Keys, Values};
}

/// Laws of maps and of the calls on them. Each function has an empty body: call it to make its clauses known to the prover.
pub mod laws {
    pub use rkyv_btree_base::laws::{
        archives_are_accepted, arrays_are_determined, claims_are_apart, each_tree_needs_room,
        entries_are_determined, entries_compare_key_first, faults_are_exact,
        left_complete_is_smallest, logarithm, natives_are_determined, options_are_determined,
        ordered_floats_are_determined, plan_is_recursive, plan_is_the_left_complete_tree,
        spelled_trees_have_the_shape, std_types_are_determined, texts_are_determined,
        trees_are_determined, tuples_are_determined, tuples4_are_determined,
        tuples5_are_determined, tuples6_are_determined, vectors_are_determined, wasteful_trees,
        worked_trees, written_maps_are_held,
    };
    pub use rkyv_btree_convert::native_map::{last_values_count, maps_are_given_by_entries};
    pub use rkyv_btree_convert::round_trip::{
        arrays_are_given_back, byte_strings_are_given_back, maps_are_given_back,
        natives_are_given_back, non_zeros_are_given_back, options_are_given_back,
        pairs_are_given_back, sets_are_given_back, texts_are_given_back, tuples_are_given_back,
        tuples4_are_given_back, tuples5_are_given_back, tuples6_are_given_back,
    };
    pub use rkyv_btree_convert::sizes::sizes_fit;
    pub use rkyv_btree_convert::std_maps::{archives_are_same_as_std, look_ups_find_as_std};
    pub use rkyv_btree_seal::edit_laws::{values_are_apart, writes_put_values};
    pub use rkyv_btree_strict::strict_laws::{
        arrays_are_ordered_alike, byte_strings_are_ordered_alike, floats_are_ordered_alike,
        natives_are_ordered_alike, neighbours_decide_order, non_zeros_are_ordered_alike,
        options_are_ordered_alike, pairs_are_ordered_alike, std_maps_are_increasing,
        tuples_are_ordered_alike, tuples4_are_ordered_alike, tuples5_are_ordered_alike,
        tuples6_are_ordered_alike, visits_keep_strict_maps, writes_keep_strict_maps,
    };
    pub use rkyv_btree_typed::type_laws::names_are_apart;
    pub use rkyv_btree_unverified::laws::{lookups_are_determined, maps_are_searched};
    pub use rkyv_btree_view::lookup::{
        increasing_keys_are_found, searched_trees_are_spelled, what_is_found_is_equal,
    };
}

/// Archived maps, read in place, and with their values written there.
pub mod map {
    pub use rkyv_btree_seal::map_seal::{MapSeal, access_mut};
    pub use rkyv_btree_view::map_view::{ShowsEntries, access, access_valid};
    pub use rkyv_btree_walk::archived_map::ArchivedMap;
}

/// Archived types whose values are native ones.
pub mod native {
    pub use rkyv_btree_view::native::ToNative;
}

/// Options, read in place.
pub mod option {
    pub use rkyv_btree_compound::option_view::ViewOption;
}

/// Ranges of the entries of a map, and of its keys.
pub mod range {
    pub use rkyv_btree_view::range::Range;
    pub use rkyv_btree_view::range_keys::RangeKeys;
}

/// Types of one's own whose archived values are a fixed number of bytes.
pub mod plain {
    pub use rkyv_btree_plain::archived_plain::ArchivedPlain;
    pub use rkyv_btree_plain::plain_value::PlainValue;
}

/// Values that are written in place.
pub mod seal {
    pub use rkyv_btree_seal::lent_key::LentKey;
    pub use rkyv_btree_seal::seal::Seal;
    pub use rkyv_btree_walk::entry_place::EntryPlace;
}

/// Archived sets, read in place.
pub mod set {
    pub use rkyv_btree_strict::strict_set::StrictSetView;
    pub use rkyv_btree_view::set_view::{Iter, Range, access, access_valid};
}

/// Lookups in a source of bytes that isn't read whole, as a file.
pub mod source {
    pub use rkyv_btree_source::block::{BLOCK_LEN, Block};
    pub use rkyv_btree_source::cached::CachedSource;
    pub use rkyv_btree_source::fault::SourceFault;
    pub use rkyv_btree_source::fetch::Fetch;
    pub use rkyv_btree_source::laws::takes_cover_reads;
    pub use rkyv_btree_source::piece::{Missing, Piece};
    pub use rkyv_btree_source::pieces::Pieces;
    pub use rkyv_btree_source::range::SourceRange;
    pub use rkyv_btree_source::reader::Reader;
    pub use rkyv_btree_source::source::{ReadAt, SeekSource};
    pub use rkyv_btree_source::unverified_source::UnverifiedSource;
}

/// How many entries a node of a std map or set has.
pub mod std_types {
    pub use rkyv_btree_archive::std_types::DEFAULT_ENTRIES_PER_NODE;
}

/// Maps whose keys increase: their validation and their views.
pub mod strict {
    pub use rkyv_btree_strict::migrate::migrate;
    pub use rkyv_btree_strict::strict::{
        CheckStrict, access_strict, open_strict, open_strict_mut, verify_strict,
    };
    pub use rkyv_btree_strict::strict_map::{Strict, StrictView};
}

/// Tuples of three to six, read in place.
pub mod tuple {
    pub use rkyv_btree_compound::front_view::FrontView;
    pub use rkyv_btree_compound::tuple_compare::{FrontEq, FrontHash, FrontOrd};
    pub use rkyv_btree_compound::tuple_view::{ViewTuple3, ViewTuple4, ViewTuple5, ViewTuple6};
    pub use rkyv_btree_convert::native_front::DeserializeFront;
}

/// Files that state the type of their map: a header with its name, and then an archive.
pub mod typed {
    pub use rkyv_btree_typed::found_name::FoundName;
    pub use rkyv_btree_typed::from_typed::{FromTypedFault, from_typed_archive};
    pub use rkyv_btree_typed::header::{HeaderFault, header_of, type_name_of};
    pub use rkyv_btree_typed::open_source::{TypedSourceFault, open_typed_source};
    pub use rkyv_btree_typed::open_typed::{
        open_typed, open_typed_mut, open_typed_strict, open_typed_strict_mut, open_typed_unverified,
    };
    pub use rkyv_btree_typed::to_typed::{to_typed_archive, write_header};
    pub use rkyv_btree_typed::type_check::{OtherType, TypedRefusal, check_type};
    pub use rkyv_btree_typed::type_name::{NameOf, StatedName, TypeName};
}

/// Lookups in bytes that nobody has validated.
pub mod unverified {
    pub use rkyv_btree_unverified::get_many::{UnverifiedKeyLookups, UnverifiedLookups};
    pub use rkyv_btree_unverified::iter::UnverifiedIter;
    pub use rkyv_btree_unverified::keys::UnverifiedKeys;
    pub use rkyv_btree_unverified::range::UnverifiedRange;
    pub use rkyv_btree_unverified::range_keys::UnverifiedRangeKeys;
    pub use rkyv_btree_unverified::unverified::Unverified;
}

/// Vectors, read in place, and iterators over their elements.
pub mod vector {
    pub use rkyv_btree_compound::vec_iter::VecIter;
    pub use rkyv_btree_compound::vector_view::ViewVec;
}

/// Values in a buffer.
pub mod view {
    pub use rkyv_btree_view::view::View;
    pub use rkyv_btree_walk::shows::Shows;
}

/// Whole archives: opened for reading, opened for edits in place, and deserialized.
pub mod whole {
    pub use rkyv_btree_convert::from_archive::{FromArchiveFault, from_archive, open, open_mut};
}

/// What most programs name.
pub mod prelude {
    pub use rkyv_btree_base::archive::Archive;
    pub use rkyv_btree_base::archive::Archived;
    pub use rkyv_btree_base::archive::Element;
    pub use rkyv_btree_base::archive::Native;
    pub use rkyv_btree_base::archive::Serialize;
    pub use rkyv_btree_base::array::ArchivedArray;
    pub use rkyv_btree_base::build::BuildMap;
    pub use rkyv_btree_base::build::BuildSet;
    pub use rkyv_btree_base::byte_string::ArchivedBytes;
    pub use rkyv_btree_base::check::CheckBytes;
    pub use rkyv_btree_base::check::InPlace;
    pub use rkyv_btree_base::check::Portable;
    pub use rkyv_btree_base::fault::Fault;
    pub use rkyv_btree_base::floats::ArchivedF32;
    pub use rkyv_btree_base::floats::ArchivedF64;
    pub use rkyv_btree_base::io_writer::IoWriter;
    pub use rkyv_btree_base::map::ArchivedBTreeMap;
    pub use rkyv_btree_base::non_zeros::ArchivedNonZeroI16;
    pub use rkyv_btree_base::non_zeros::ArchivedNonZeroI32;
    pub use rkyv_btree_base::non_zeros::ArchivedNonZeroI64;
    pub use rkyv_btree_base::non_zeros::ArchivedNonZeroU16;
    pub use rkyv_btree_base::non_zeros::ArchivedNonZeroU64;
    pub use rkyv_btree_base::numbers::ArchivedU16;
    pub use rkyv_btree_base::numbers::ArchivedU32;
    pub use rkyv_btree_base::numbers::ArchivedU64;
    pub use rkyv_btree_base::option::ArchivedOption;
    pub use rkyv_btree_base::place::VecWriter;
    pub use rkyv_btree_base::refusal::Refusal;
    pub use rkyv_btree_base::scalars::ArchivedChar;
    pub use rkyv_btree_base::scalars::ArchivedNonZeroU32;
    pub use rkyv_btree_base::set::ArchivedBTreeSet;
    pub use rkyv_btree_base::signed::ArchivedI16;
    pub use rkyv_btree_base::signed::ArchivedI32;
    pub use rkyv_btree_base::signed::ArchivedI64;
    pub use rkyv_btree_base::text::ArchivedText;
    pub use rkyv_btree_base::tuple::ArchivedTuple3;
    pub use rkyv_btree_base::tuple::ArchivedTuple4;
    pub use rkyv_btree_base::tuple::ArchivedTuple5;
    pub use rkyv_btree_base::tuple::ArchivedTuple6;
    pub use rkyv_btree_base::util::Entry;
    pub use rkyv_btree_base::vector::ArchivedVec;
    pub use rkyv_btree_base::whole::to_archive;
    pub use rkyv_btree_base::wide::ArchivedI128;
    pub use rkyv_btree_base::wide::ArchivedNonZeroI128;
    pub use rkyv_btree_base::wide::ArchivedNonZeroU128;
    pub use rkyv_btree_base::wide::ArchivedU128;
    pub use rkyv_btree_compound::array_view::ViewArray;
    pub use rkyv_btree_compound::option_view::ViewOption;
    pub use rkyv_btree_compound::tuple_view::ViewTuple3;
    pub use rkyv_btree_compound::tuple_view::ViewTuple4;
    pub use rkyv_btree_compound::tuple_view::ViewTuple5;
    pub use rkyv_btree_compound::tuple_view::ViewTuple6;
    pub use rkyv_btree_compound::vec_iter::VecIter;
    pub use rkyv_btree_compound::vector_view::ViewVec;
    pub use rkyv_btree_convert::deserialize::Deserialize;
    pub use rkyv_btree_convert::deserialize::DeserializeFault;
    pub use rkyv_btree_convert::deserialize_native::DeserializeNative;
    pub use rkyv_btree_convert::entry_type::EntryType;
    pub use rkyv_btree_convert::from_archive::FromArchiveFault;
    pub use rkyv_btree_convert::from_archive::from_archive;
    pub use rkyv_btree_convert::from_archive::open;
    pub use rkyv_btree_convert::from_archive::open_mut;
    pub use rkyv_btree_convert::sizes::sizes_fit;
    pub use rkyv_btree_plain::archived_plain::ArchivedPlain;
    pub use rkyv_btree_plain::plain_value::PlainValue;
    pub use rkyv_btree_seal::cursor::IterSeal;
    pub use rkyv_btree_seal::lent_key::LentKey;
    pub use rkyv_btree_seal::map_seal::MapSeal;
    pub use rkyv_btree_seal::map_seal::access_mut;
    pub use rkyv_btree_seal::range_cursor::RangeSeal;
    pub use rkyv_btree_seal::seal::Seal;
    pub use rkyv_btree_strict::strict::CheckStrict;
    pub use rkyv_btree_strict::strict::access_strict;
    pub use rkyv_btree_strict::strict::open_strict;
    pub use rkyv_btree_strict::strict::open_strict_mut;
    pub use rkyv_btree_strict::strict_map::Strict;
    pub use rkyv_btree_strict::strict_map::StrictView;
    pub use rkyv_btree_typed::from_typed::from_typed_archive;
    pub use rkyv_btree_typed::header::type_name_of;
    pub use rkyv_btree_typed::open_typed::open_typed;
    pub use rkyv_btree_typed::open_typed::open_typed_mut;
    pub use rkyv_btree_typed::open_typed::open_typed_strict;
    pub use rkyv_btree_typed::open_typed::open_typed_strict_mut;
    pub use rkyv_btree_typed::open_typed::open_typed_unverified;
    pub use rkyv_btree_typed::to_typed::to_typed_archive;
    pub use rkyv_btree_typed::to_typed::write_header;
    pub use rkyv_btree_typed::type_check::TypedRefusal;
    pub use rkyv_btree_typed::type_name::StatedName;
    pub use rkyv_btree_typed::type_name::TypeName;
    pub use rkyv_btree_unverified::get_many::UnverifiedKeyLookups;
    pub use rkyv_btree_unverified::get_many::UnverifiedLookups;
    pub use rkyv_btree_unverified::unverified::Unverified;
    pub use rkyv_btree_view::compare::ViewEq;
    pub use rkyv_btree_view::compare::ViewHash;
    pub use rkyv_btree_view::compare::ViewOrd;
    pub use rkyv_btree_view::compare_native::CompareWith;
    pub use rkyv_btree_view::compare_native::SameAs;
    pub use rkyv_btree_view::map_view::access;
    pub use rkyv_btree_view::native::ToNative;
    pub use rkyv_btree_view::view::View;
    pub use std::ops::Bound;
    pub use std::ops::ControlFlow;
}

//! What archives are, how they are written, and how foreign bytes are checked: what a program
//! names that writes archives. It has no code of its own.
#![tactic(auto)]

pub use rkyv_btree_portable::{non_zeros, numbers, refusal, scalars, signed};
pub use rkyv_btree_writer::{fault, io_writer};

/// Values that can be archived.
pub mod archive {
    pub use rkyv_btree_archive::archive::{Archive, Archived, Native, Serialize};
    pub use rkyv_btree_archive::element::Element;
}

/// Archived arrays, as a type of bytes.
pub mod array {
    pub use rkyv_btree_compound::array::ArchivedArray;
}

/// Building maps and sets, and what a serialized one leaves to be written: where its root is.
pub mod build {
    pub use rkyv_btree_archive::build::BTreeMapResolver;
    pub use rkyv_btree_archive::build_map::BuildMap;
    pub use rkyv_btree_archive::build_set::BuildSet;
}

/// Numbers and pointers in a buffer.
pub mod bytes {
    pub use rkyv_btree_portable::bytes::{num32, target};
}

/// Archived types, and the check of their bytes.
pub mod check {
    pub use rkyv_btree_portable::check::{
        CheckBytes, Portable, Scalar, Window, check_in_place, check_place,
    };
    pub use rkyv_btree_portable::in_place::InPlace;
}

/// Items that lend what is serialized: values themselves, and references.
pub mod borrow {
    pub use rkyv_btree_archive::borrow::Borrow;
}

/// Sizes and offsets of nodes, and levels of trees.
pub mod layout {
    pub use rkyv_btree_format::layout::{
        align, fits, greater_at, inner_size, key_at, leaf_size, len_at, lesser_at, node_align,
        value_at,
    };
    pub use rkyv_btree_shape::height::entries_to_height;
}

/// Writers, places for archived values, and relative pointers.
pub mod place {
    pub use rkyv_btree_writer::place::{Place, RelPtr, VecWriter, Writer};
}

/// The errors of building from iterators that can fail.
pub mod try_build {
    pub use rkyv_btree_archive::try_build::TryFault;
}

/// Laws of archives, of their validation and of their trees. Each function has an empty body: call it to make its clauses known to the
/// prover.
pub mod laws {
    pub use rkyv_btree_archive::archive::natives_are_determined;
    pub use rkyv_btree_archive::array::arrays_are_determined;
    pub use rkyv_btree_archive::build::{
        archives_are_accepted, trees_are_determined, written_maps_are_held,
    };
    pub use rkyv_btree_archive::floats::ordered_floats_are_determined;
    pub use rkyv_btree_archive::option::options_are_determined;
    pub use rkyv_btree_archive::std_types::std_types_are_determined;
    pub use rkyv_btree_archive::string::texts_are_determined;
    pub use rkyv_btree_archive::tuples::{
        tuples_are_determined, tuples4_are_determined, tuples5_are_determined,
        tuples6_are_determined,
    };
    pub use rkyv_btree_archive::util::entries_are_determined;
    pub use rkyv_btree_archive::vector::vectors_are_determined;
    pub use rkyv_btree_format::competitors::spelled_trees_have_the_shape;
    pub use rkyv_btree_portable::entry::entries_compare_key_first;
    pub use rkyv_btree_shape::shape::{
        each_tree_needs_room, left_complete_is_smallest, logarithm, plan_is_recursive,
        plan_is_the_left_complete_tree, wasteful_trees, worked_trees,
    };
    pub use rkyv_btree_verify::verify::{claims_are_apart, faults_are_exact};
}

/// Archived maps, as a type of bytes.
pub mod map {
    pub use rkyv_btree_types::map::ArchivedBTreeMap;
}

/// Archived sets, as a type of bytes, and the check of untrusted bytes for one.
pub mod set {
    pub use rkyv_btree_archive::build_set::BTreeSetResolver;
    pub use rkyv_btree_types::set::{ArchivedBTreeSet, verify};
}

/// Archived byte strings, as a type of bytes.
pub mod byte_string {
    pub use rkyv_btree_portable::byte_string::ArchivedBytes;
}

/// Archived floating-point numbers, as types of bytes.
pub mod floats {
    pub use rkyv_btree_compound::floats::{ArchivedF32, ArchivedF64, ArchivedFloat};
}

/// Archived options, as a type of bytes.
pub mod option {
    pub use rkyv_btree_compound::option::ArchivedOption;
}

/// Archived tuples of three to six, as types of bytes. A pair is an `Entry`.
pub mod tuple {
    pub use rkyv_btree_archive::front_refs::{ArchiveFront, FirstRef, NextRef};
    pub use rkyv_btree_archive::front_serialize::SerializeFront;
    pub use rkyv_btree_compound::front::{CheckFront, First, Next, TupleFront};
    pub use rkyv_btree_compound::front_in_place::InPlaceFront;
    pub use rkyv_btree_compound::tuple::{
        ArchivedTuple, ArchivedTuple3, ArchivedTuple4, ArchivedTuple5, ArchivedTuple6,
    };
}

/// Archived texts, as a type of bytes.
pub mod text {
    pub use rkyv_btree_portable::text::{ArchivedText, text_range};
}

/// Entries and pairs, as types of bytes, and entries that are serialized from references.
pub mod util {
    pub use rkyv_btree_archive::util::{EntryAdapter, EntryResolver};
    pub use rkyv_btree_portable::entry::{Entry, value_offset};
}

/// Archived vectors, as a type of bytes.
pub mod vector {
    pub use rkyv_btree_compound::vector::ArchivedVec;
}

/// Archived numbers of 128 bits, as types of bytes.
pub mod wide {
    pub use rkyv_btree_compound::wide::{
        ArchivedI128, ArchivedNonZeroI128, ArchivedNonZeroU128, ArchivedU128, ArchivedWide,
        non_zero_i128, non_zero_u128,
    };
}

/// Whole archives: one value, whose own bytes come last.
pub mod whole {
    pub use rkyv_btree_archive::to_archive::{to_archive, write_value};
}

/// Counting the steps of a check.
pub mod steps {
    pub use rkyv_btree_portable::steps::StepCounter;
}

/// The check of foreign bytes for a map.
pub mod verify {
    pub use rkyv_btree_verify::verify::{verify, verify_counted};
}

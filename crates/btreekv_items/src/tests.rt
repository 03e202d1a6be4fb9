use crate::at_item;
use crate::item::{BytesStyle, Item};
use crate::item_type::ItemType;
use rkyv_btree_archive::to_archive::to_archive;
use rkyv_btree_portable::byte_string::ArchivedBytes;
use rkyv_btree_portable::check::CheckBytes;
use rkyv_btree_portable::numbers::ArchivedU32;
use rkyv_btree_portable::signed::ArchivedI64;
use rkyv_btree_portable::text::ArchivedText;
use rkyv_btree_view::view::View;
use std::alloc::{AllocError, Global};
use std::cmp::Ordering;

const STYLE: BytesStyle = BytesStyle::Hexadecimal;

#[test]
fn numbers_are_read_as_they_are_written(rt: HostRuntime) -> Result<(), AllocError> {
    let alloc = rt.alloc();
    assert_eq!(rt; ArchivedU32::parse(alloc, STYLE, "17")?, Some(17));
    assert_eq!(rt;
        ArchivedU32::parse(alloc, STYLE, "4294967295")?,
        Some(4294967295)
    );
    assert_eq!(rt; ArchivedU32::parse(alloc, STYLE, "4294967296")?, None);
    assert_eq!(rt; ArchivedU32::parse(alloc, STYLE, "007")?, None);
    assert_eq!(rt; ArchivedU32::parse(alloc, STYLE, "+7")?, None);
    assert_eq!(rt; ArchivedU32::parse(alloc, STYLE, "")?, None);
    assert_eq!(rt; ArchivedI64::parse(alloc, STYLE, "-5")?, Some(-5));
    assert_eq!(rt;
        ArchivedI64::parse(alloc, STYLE, "-9223372036854775808")?,
        Some(i64::MIN)
    );
    assert_eq!(rt; ArchivedI64::parse(alloc, STYLE, "-0")?, None);
    Ok(())
}

#[test]
fn texts_are_read_as_they_are_written(rt: HostRuntime) -> Result<(), AllocError> {
    let read = ArchivedText::parse(rt.alloc(), STYLE, "ü, 7")?;
    assert!(rt; matches!(&read, Some(text) if text.as_str() == "ü, 7"));
    Ok(())
}

#[test]
fn bytes_are_read_in_the_style_that_they_are_written_in(rt: HostRuntime) -> Result<(), AllocError> {
    let alloc = rt.alloc();
    let read = ArchivedBytes::parse(alloc, STYLE, "00ff7a")?;
    assert!(rt; matches!(&read, Some(bytes) if bytes.as_slice() == [0, 255, 122].as_slice()));
    let read = ArchivedBytes::parse(alloc, BytesStyle::Base64, "AP96")?;
    assert!(rt; matches!(&read, Some(bytes) if bytes.as_slice() == [0, 255, 122].as_slice()));
    assert!(rt; ArchivedBytes::parse(alloc, STYLE, "00FF7A")?.is_none());
    assert!(rt; ArchivedBytes::parse(alloc, STYLE, "00f")?.is_none());
    assert!(rt; ArchivedBytes::parse(alloc, BytesStyle::Base64, "AA")?.is_none());
    assert!(rt; ArchivedBytes::parse(alloc, BytesStyle::Base64, "AB==")?.is_none());
    Ok(())
}

/// Returns whether a text is read as a value that is archived, and written again as this text.
fn comes_back<T: Item>(alloc: Global, text: &str) -> Result<bool, AllocError> {
    if !T::fits() {
        return Ok(false);
    }
    let Some(native) = T::parse(alloc, STYLE, text)? else {
        return Ok(false);
    };
    let Ok(bytes) = to_archive(alloc, &native) else {
        return Ok(false);
    };
    let size = T::size() as usize;
    if bytes.len() < size {
        return Ok(false);
    }
    let Ok(pos) = u32::try_from(bytes.len() - size) else {
        return Ok(false);
    };
    let Ok(view) = View::<T>::check(bytes.as_slice(), pos) else {
        return Ok(false);
    };
    let mut out = String::new(alloc);
    T::push_text(&mut out, STYLE, &view)?;
    Ok(out.as_str() == text && T::compare_native(&native, &view) == Ordering::Equal)
}

#[test]
fn each_type_writes_what_it_reads(rt: HostRuntime) -> Result<(), AllocError> {
    let alloc = rt.alloc();
    let cases = [
        ("u8", "255"),
        ("u16", "65535"),
        ("u32", "0"),
        ("u64", "18446744073709551615"),
        ("u128", "340282366920938463463374607431768211455"),
        ("i8", "-128"),
        ("i16", "-1"),
        ("i32", "2147483647"),
        ("i64", "-9223372036854775808"),
        ("i128", "-170141183460469231731687303715884105728"),
        ("bool", "false"),
        ("char", "ü"),
        ("text", "a, b"),
        ("bytes", "00ff"),
        ("()", ""),
        ("option(u32)", ""),
        ("option(u64)", "7"),
        ("option(i64)", "-7"),
        ("(u32, u32)", "1,2"),
        ("(u64, u64)", "3,4"),
        ("(u32, text)", "5,six, seven"),
        ("(u32, u32, u32)", "1,2,3"),
        ("(u64, u64, u64)", "4,5,18446744073709551615"),
    ];
    for (name, text) in cases {
        let Some(item_type) = ItemType::from_name(name) else {
            assert!(rt; false, "no type has the name {name}");
            return Ok(());
        };
        assert!(rt;
            at_item!(item_type, comes_back(alloc, text))?,
            "{text} as {name}"
        );
    }
    Ok(())
}

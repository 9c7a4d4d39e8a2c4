//! Items: bytes and values side by side, written by hand from the format table of SEMI E5.

use gl_base::{NoMemory, Row};
use secs_items::{
    EncodeFault, Item, ItemFault, ItemView, Kind, MAX_DEPTH, check, decode, encode_into, list_len,
    text_len,
};
use std::alloc::Global;

fn text(alloc: Global, of: &[u8]) -> Result<Item, NoMemory> {
    Ok(Item::A(Row::of(alloc, of)?))
}

fn binary(alloc: Global, of: &[u8]) -> Result<Item, NoMemory> {
    Ok(Item::B(Row::of(alloc, of)?))
}

fn truths(alloc: Global, of: &[u8]) -> Result<Item, NoMemory> {
    Ok(Item::Bool(Row::of(alloc, of)?))
}

fn jis(alloc: Global, of: &[u8]) -> Result<Item, NoMemory> {
    Ok(Item::J(Row::of(alloc, of)?))
}

fn signed_1(alloc: Global, of: &[i8]) -> Result<Item, NoMemory> {
    Ok(Item::I1(Row::of(alloc, of)?))
}

fn signed_2(alloc: Global, of: &[i16]) -> Result<Item, NoMemory> {
    Ok(Item::I2(Row::of(alloc, of)?))
}

fn signed_4(alloc: Global, of: &[i32]) -> Result<Item, NoMemory> {
    Ok(Item::I4(Row::of(alloc, of)?))
}

fn signed_8(alloc: Global, of: &[i64]) -> Result<Item, NoMemory> {
    Ok(Item::I8(Row::of(alloc, of)?))
}

fn unsigned_1(alloc: Global, of: &[u8]) -> Result<Item, NoMemory> {
    Ok(Item::U1(Row::of(alloc, of)?))
}

fn unsigned_2(alloc: Global, of: &[u16]) -> Result<Item, NoMemory> {
    Ok(Item::U2(Row::of(alloc, of)?))
}

fn unsigned_4(alloc: Global, of: &[u32]) -> Result<Item, NoMemory> {
    Ok(Item::U4(Row::of(alloc, of)?))
}

fn unsigned_8(alloc: Global, of: &[u64]) -> Result<Item, NoMemory> {
    Ok(Item::U8(Row::of(alloc, of)?))
}

fn float_4(alloc: Global, of: &[[u8; 4]]) -> Result<Item, NoMemory> {
    Ok(Item::F4(Row::of(alloc, of)?))
}

fn float_8(alloc: Global, of: &[[u8; 8]]) -> Result<Item, NoMemory> {
    Ok(Item::F8(Row::of(alloc, of)?))
}

/// How many items `sample` has.
const SAMPLES: usize = 20;

/// An item: of each kind one of two elements, a few of none or one, and two whose heads differ in length.
fn sample(alloc: Global, place: usize) -> Result<Item, NoMemory> {
    match place {
        0 => Ok(Item::L(Row::new(alloc))),
        1 => list(alloc),
        2 => text(alloc, b""),
        3 => text(alloc, b"AB"),
        4 => binary(alloc, &[0, 0xFF]),
        5 => truths(alloc, &[2, 0]),
        6 => jis(alloc, &[0xB1, 0xB2]),
        7 => signed_1(alloc, &[-128, 127]),
        8 => signed_2(alloc, &[-32768, 258]),
        9 => signed_4(alloc, &[-2147483648, 0x01020304]),
        10 => signed_8(alloc, &[-2, 0x0102030405060708]),
        11 => unsigned_1(alloc, &[0, 255]),
        12 => unsigned_2(alloc, &[0xFFFF, 258]),
        13 => unsigned_4(alloc, &[5]),
        14 => unsigned_4(alloc, &[0x01020304, u32::MAX]),
        15 => unsigned_8(alloc, &[9, u64::MAX]),
        16 => float_4(alloc, &[*b"abcd", *b"efgh"]),
        17 => float_8(alloc, &[*b"abcdefgh", *b"ijklmnop"]),
        18 => binary(alloc, &[7; 255]),
        _ => binary(alloc, &[7; 256]),
    }
}

/// U1 of 7 and an empty list.
fn list(alloc: Global) -> Result<Item, NoMemory> {
    let mut items = Row::new(alloc);
    items.push(unsigned_1(alloc, &[7])?)?;
    items.push(Item::L(Row::new(alloc)))?;
    Ok(Item::L(items))
}

/// The spellings of the first of them.
const SPELLINGS: [&[u8]; 18] = [
    &[0x01, 0],
    &[0x01, 2, 0xA5, 1, 7, 0x01, 0],
    &[0x41, 0],
    &[0x41, 2, 0x41, 0x42],
    &[0x21, 2, 0, 0xFF],
    &[0x25, 2, 2, 0],
    &[0x45, 2, 0xB1, 0xB2],
    &[0x65, 2, 0x80, 0x7F],
    &[0x69, 4, 0x80, 0, 1, 2],
    b"\x71\x08\x80\0\0\0\x01\x02\x03\x04",
    b"\x61\x10\xFF\xFF\xFF\xFF\xFF\xFF\xFF\xFE\x01\x02\x03\x04\x05\x06\x07\x08",
    &[0xA5, 2, 0, 255],
    &[0xA9, 4, 0xFF, 0xFF, 1, 2],
    &[0xB1, 4, 0, 0, 0, 5],
    b"\xB1\x08\x01\x02\x03\x04\xFF\xFF\xFF\xFF",
    b"\xA1\x10\0\0\0\0\0\0\0\x09\xFF\xFF\xFF\xFF\xFF\xFF\xFF\xFF",
    b"\x91\x08abcdefgh",
    b"\x81\x10abcdefghijklmnop",
];

fn is_spelled(alloc: Global, item: &Item, bytes: &[u8]) -> bool {
    let mut row = Row::new(alloc);
    encode_into(item, &mut row).is_ok() && row.as_slice() == bytes
}

fn is_read(alloc: Global, bytes: &[u8], item: &Item) -> bool {
    match decode(alloc, bytes) {
        Ok(read) => read.equals(item),
        Err(_) => false,
    }
}

fn is_copied(alloc: Global, item: &Item) -> bool {
    match item.copy(alloc) {
        Ok(copy) => copy.equals(item),
        Err(_) => false,
    }
}

/// Whether the item comes back from the view, which has its kind and its content: the bytes behind the head's two.
fn shows(alloc: Global, view: &ItemView<'_>, item: &Item, len: usize) -> bool {
    view.kind() == item.kind()
        && view.bytes().len() + 2 == len
        && view.item(alloc).is_ok_and(|shown| shown.equals(item))
}

fn is_viewed(alloc: Global, bytes: &[u8], item: &Item) -> bool {
    match check(bytes) {
        Ok(view) => shows(alloc, &view, item, bytes.len()),
        Err(_) => false,
    }
}

/// Whether the sample at the place has these bytes, and comes back from them.
fn agrees(alloc: Global, place: usize, bytes: &[u8]) -> bool {
    match sample(alloc, place) {
        Ok(item) => {
            is_spelled(alloc, &item, bytes)
                && is_read(alloc, bytes, &item)
                && is_copied(alloc, &item)
                && is_viewed(alloc, bytes, &item)
                && item.spelled_len() == bytes.len()
        }
        Err(_) => false,
    }
}

fn all_agree(alloc: Global) -> bool {
    for place in 0..SPELLINGS.len() {
        if !agrees(alloc, place, SPELLINGS[place]) {
            return false;
        }
    }
    true
}

#[test]
fn every_kind(rt: HostRuntime) {
    assert!(rt; all_agree(rt.alloc()));
}

/// Whether an item equals the sample at the place.
fn is_sample(alloc: Global, item: &Item, place: usize) -> Option<bool> {
    let other = sample(alloc, place).ok()?;
    Some(item.equals(&other))
}

/// Whether two samples are equal exactly where they are the same one.
fn are_told_apart(alloc: Global, first: usize, second: usize) -> bool {
    match sample(alloc, first) {
        Ok(one) => is_sample(alloc, &one, second) == Some(first == second),
        Err(_) => false,
    }
}

fn all_told_apart(alloc: Global) -> bool {
    for pair in 0..SAMPLES * SAMPLES {
        if !are_told_apart(alloc, pair / SAMPLES, pair % SAMPLES) {
            return false;
        }
    }
    true
}

#[test]
fn equal_to_itself_alone(rt: HostRuntime) {
    assert!(rt; all_told_apart(rt.alloc()));
}

/// Spellings with more length bytes than they need.
const LONGER: [(&[u8], &[u8]); 6] = [
    (&[0x02, 0, 1, 0xA7, 0, 0, 1, 7], &[0x01, 1, 0xA5, 1, 7]),
    (&[0x42, 0, 0], &[0x41, 0]),
    (&[0x43, 0, 0, 1, 0x41], &[0x41, 1, 0x41]),
    (&[0xB2, 0, 4, 0, 0, 0, 5], &[0xB1, 4, 0, 0, 0, 5]),
    (b"\x93\0\0\x04abcd", b"\x91\x04abcd"),
    (b"\x6B\0\0\x02\xFF\xFE", b"\x69\x02\xFF\xFE"),
];

/// Whether the bytes are read as an item with this shortest spelling.
fn is_shortened(alloc: Global, bytes: &[u8], shortest: &[u8]) -> bool {
    match decode(alloc, bytes) {
        Ok(item) => is_spelled(alloc, &item, shortest),
        Err(_) => false,
    }
}

fn all_shortened(alloc: Global) -> bool {
    for (bytes, shortest) in LONGER {
        if !is_shortened(alloc, bytes, shortest) {
            return false;
        }
    }
    true
}

#[test]
fn any_length_bytes(rt: HostRuntime) {
    assert!(rt; all_shortened(rt.alloc()));
}

/// Bytes and their first fault.
const FAULTS: [(&[u8], ItemFault); 8] = [
    (&[], ItemFault::Short { at: 0 }),
    (&[0xB0], ItemFault::NoLengthBytes { at: 0 }),
    (&[0xB1, 3, 0, 0, 0], ItemFault::Uneven { at: 0 }),
    (&[0x41, 2, 0x41], ItemFault::Short { at: 3 }),
    (&[0x43, 0, 0], ItemFault::Short { at: 3 }),
    (&[0x49, 0], ItemFault::BadCode { at: 0 }),
    (&[0x01, 0, 0], ItemFault::Trailing { at: 2 }),
    (
        &[0x03, 0xFF, 0xFF, 0xFF, 0],
        ItemFault::NoLengthBytes { at: 4 },
    ),
];

/// Whether the bytes are refused for this, read and viewed.
fn is_refused(alloc: Global, bytes: &[u8], fault: ItemFault) -> bool {
    decode(alloc, bytes).err() == Some(fault) && check(bytes).err() == Some(fault)
}

fn all_refused(alloc: Global) -> bool {
    for (bytes, fault) in FAULTS {
        if !is_refused(alloc, bytes, fault) {
            return false;
        }
    }
    true
}

#[test]
fn faults(rt: HostRuntime) {
    assert!(rt; all_refused(rt.alloc()));
}

/// So many heads of lists, one in another, each with three length bytes of this.
fn nested(alloc: Global, lists: usize, length: u8) -> Result<Row<u8>, NoMemory> {
    let mut bytes = Row::new(alloc);
    for _ in 0..lists {
        bytes.extend(&[0x03, length, length, length.max(1)])?;
    }
    Ok(bytes)
}

/// So many lists, one in another, the innermost empty.
fn nested_lists(alloc: Global, lists: usize) -> Result<Row<u8>, NoMemory> {
    let mut bytes = nested(alloc, lists.saturating_sub(1), 0)?;
    bytes.extend(&[0x01, 0])?;
    Ok(bytes)
}

/// Whether 64 lists one in another are read.
fn reads_64(alloc: Global) -> bool {
    match nested_lists(alloc, 64) {
        Ok(bytes) => is_as_deep(alloc, bytes.as_slice()),
        Err(_) => false,
    }
}

/// Whether 65 lists one in another are refused.
fn refuses_65(alloc: Global) -> bool {
    match nested_lists(alloc, 65) {
        Ok(bytes) => is_refused(alloc, bytes.as_slice(), ItemFault::TooDeep { at: 256 }),
        Err(_) => false,
    }
}

fn is_as_deep(alloc: Global, bytes: &[u8]) -> bool {
    match decode(alloc, bytes) {
        Ok(item) => item.depth() == MAX_DEPTH && is_too_deep_in_a_list(alloc, item),
        Err(_) => false,
    }
}

/// Whether a list around the item has no spelling, and leaves the row as it was.
fn is_too_deep_in_a_list(alloc: Global, item: Item) -> bool {
    let mut around = Row::new(alloc);
    if around.push(item).is_err() {
        return false;
    }
    let item = Item::L(around);
    item.depth() == MAX_DEPTH + 1 && is_not_put(alloc, &item, EncodeFault::TooDeep { at: 128 })
}

fn is_not_put(alloc: Global, item: &Item, fault: EncodeFault) -> bool {
    let mut into = Row::new(alloc);
    into.push(9).is_ok()
        && encode_into(item, &mut into).err() == Some(fault)
        && into.as_slice() == [9].as_slice()
}

#[test]
fn depth(rt: HostRuntime) {
    assert!(rt; reads_64(rt.alloc()) && refuses_65(rt.alloc()));
}

/// Whether 64 lists that claim 16,777,215 items each are refused where the bytes end. Room for what they claim would be
/// some 30 GB.
fn reserves_nothing(alloc: Global) -> bool {
    match nested(alloc, 64, 0xFF) {
        Ok(claims) => is_refused(alloc, claims.as_slice(), ItemFault::Short { at: 256 }),
        Err(_) => false,
    }
}

#[test]
fn claims_take_no_memory(rt: HostRuntime) {
    assert!(rt; reserves_nothing(rt.alloc()));
}

/// Whether 16,777,216 bytes are one too many.
fn ends_at_16_777_215(alloc: Global) -> bool {
    let mut bytes = Row::new(alloc);
    for _ in 0..4096 {
        if bytes.extend(&[0; 4096]).is_err() {
            return false;
        }
    }
    is_not_put(alloc, &Item::B(bytes), EncodeFault::TooLong { at: 0 })
}

#[test]
fn too_long(rt: HostRuntime) {
    assert!(rt; ends_at_16_777_215(rt.alloc()));
}

fn is_as_long(alloc: Global, place: usize, len: usize) -> bool {
    match sample(alloc, place) {
        Ok(item) => item.spelled_len() == len,
        Err(_) => false,
    }
}

/// Lengths of shortest spellings where the head grows.
#[test]
fn longer_heads(rt: HostRuntime) {
    assert!(rt; is_as_long(rt.alloc(), 18, 257) && is_as_long(rt.alloc(), 19, 259));
}

/// A list of a U4 of 258, an A of `x` and a U1 of 1 and 2.
const LIST: [u8; 16] = [
    0x02, 0, 3, 0xB1, 4, 0, 0, 1, 2, 0x41, 1, b'x', 0xA5, 2, 1, 2,
];

fn is_list(list: &ItemView<'_>) -> bool {
    list.kind() == Kind::L
        && list.len() == 3
        && list.bytes() == &LIST[3..]
        && list.child(3).is_none()
}

/// Whether the child at the place has so many elements, this number, and no child.
fn is_child(list: &ItemView<'_>, place: usize, len: usize, number: Option<u64>) -> bool {
    match list.child(place) {
        Some(child) => child.len() == len && child.number() == number && child.child(0).is_none(),
        None => false,
    }
}

fn has_its_parts(list: &ItemView<'_>) -> bool {
    is_list(list) && is_child(list, 0, 1, Some(258)) && is_child(list, 2, 2, None)
}

#[test]
fn views(rt: HostRuntime) {
    assert!(rt; check(&LIST).is_ok_and(|list| has_its_parts(&list)));
}

fn is_number(item: Result<Item, NoMemory>, number: u32) -> bool {
    match item {
        Ok(Item::U4(numbers)) => numbers.as_slice() == [number].as_slice(),
        _ => false,
    }
}

fn is_text(item: Result<Item, NoMemory>, text: &[u8]) -> bool {
    match item {
        Ok(Item::A(characters)) => characters.as_slice() == text,
        _ => false,
    }
}

#[test]
fn parts_of_messages(rt: HostRuntime) {
    assert!(rt; is_number(Item::number(rt.alloc(), 258), 258));
    assert!(rt; is_text(Item::text(rt.alloc(), b"KPA"), b"KPA"));
    assert!(rt; list_len(2, 12) == 14 && list_len(256, 1536) == 1539 && text_len(255) == 257);
}

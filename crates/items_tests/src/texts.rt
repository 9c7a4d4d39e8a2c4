//! Texts of items, read and printed.

use gl_base::{NoMemory, Row};
use secs_items::Item;
use secs_text::{TextFault, print, read};
use std::alloc::Global;

fn is_printed(alloc: Global, item: &Item, text: &[u8]) -> bool {
    let mut row = Row::new(alloc);
    print(item, &mut row).is_ok() && row.as_slice() == text
}

/// Whether a text is read as an item whose text is `printed`.
fn prints(alloc: Global, text: &[u8], printed: &[u8]) -> bool {
    match read(alloc, text) {
        Ok(item) => is_printed(alloc, &item, printed),
        Err(_) => false,
    }
}

fn is_refused(alloc: Global, text: &[u8], fault: TextFault) -> bool {
    read(alloc, text).err() == Some(fault)
}

/// Texts that are printed as they are read: of each kind one without elements, and one with the bounds of its numbers.
const SAME: [&[u8]; 32] = [
    b"<L>",
    b"<L <L <L>> <B 00 FF>>",
    b"<L <A \"a\\x0A\">>",
    b"<A \"\">",
    b"<A \"a\">",
    b"<A \"a\\x0A\">",
    b"<B>",
    b"<B 00 FF>",
    b"<BOOLEAN>",
    b"<BOOLEAN 01 00>",
    b"<J>",
    b"<J 7F 80>",
    b"<I1>",
    b"<I1 -128 127 0 -1>",
    b"<I2>",
    b"<I2 -32768 32767>",
    b"<I4>",
    b"<I4 -2147483648 2147483647>",
    b"<I8>",
    b"<I8 -9223372036854775808 9223372036854775807 -1 10>",
    b"<U1>",
    b"<U1 0 255>",
    b"<U2>",
    b"<U2 0 65535 10 9>",
    b"<U4>",
    b"<U4 0 4294967295>",
    b"<U8>",
    b"<U8 0 18446744073709551615>",
    b"<F4>",
    b"<F4 00000000 FFFFFFFF 3F800000 89ABCDEF>",
    b"<F8>",
    b"<F8 0123456789ABCDEF FEDCBA9876543210>",
];

fn all_print_the_same(alloc: Global) -> bool {
    for text in SAME {
        if !prints(alloc, text, text) {
            return false;
        }
    }
    true
}

#[test]
fn every_kind_is_printed_as_it_is_read(rt: HostRuntime) {
    assert!(rt; all_print_the_same(rt.alloc()));
}

fn is_number(alloc: Global, text: &[u8], number: u32) -> bool {
    match read(alloc, text) {
        Ok(Item::U4(numbers)) => numbers.as_slice() == [number].as_slice(),
        _ => false,
    }
}

fn is_text(item: &Item, text: &[u8]) -> bool {
    match item {
        Item::A(bytes) => bytes.as_slice() == text,
        _ => false,
    }
}

fn is_list_of_text(alloc: Global, list: &[u8], text: &[u8]) -> bool {
    match read(alloc, list) {
        Ok(Item::L(items)) => match items.as_slice() {
            [item] => is_text(item, text),
            _ => false,
        },
        _ => false,
    }
}

#[test]
fn texts_are_read_as_their_items(rt: HostRuntime) {
    let alloc = rt.alloc();
    assert!(rt; is_number(alloc, b"<U4 5>", 5));
    assert!(rt; is_list_of_text(alloc, b"<L <A \"a\\x0A\">>", &[0x61, 0x0A]));
}

#[test]
fn blanks_and_lower_case_are_read(rt: HostRuntime) {
    let text = b" \t<L\r\n<B  0a\tFf > <A\n\"\\x0a\" >\r>\n";
    assert!(rt; prints(rt.alloc(), text, b"<L <B 0A FF> <A \"\\x0A\">>"));
}

/// Texts whose form breaks, and where.
const BROKEN: [(&[u8], usize); 25] = [
    (b"", 0),
    (b"<U1 1", 5),
    (b"<UX 1>", 2),
    (b"<BO>", 3),
    (b"<B OOLEAN>", 3),
    (b"<L<L>>", 2),
    (b"< L>", 1),
    (b"<A>", 2),
    (b"<A \"a\" \"b\">", 7),
    (b"<A \"\\x41\">", 6),
    (b"<A \"\\x20\">", 7),
    (b"<A \"\n\">", 4),
    (b"<B 0>", 4),
    (b"<B 000>", 5),
    (b"<B 0 0>", 4),
    (b"<U1 -0>", 5),
    (b"<U1 01>", 5),
    (b"<U1 25x>", 6),
    (b"<U1 ->", 5),
    (b"<I1 -0>", 5),
    (b"<U1 2-1>", 5),
    (b"<U1 5<", 5),
    (b"<A \" 256>", 9),
    (b"<F4 3F80000>", 11),
    (b"<L> x", 4),
];

/// Texts whose first number is outside its kind.
const OUTSIDE: [&[u8]; 12] = [
    b"<U1 256>",
    b"<U1 256x>",
    b"<U1 256",
    b"<U1 256 999>",
    b"<U1 -1>",
    b"<U1 -5x",
    b"<I1 128>",
    b"<I1 -129>",
    b"<I8 9223372036854775808>",
    b"<I8 -9223372036854775809>",
    b"<U8 18446744073709551616>",
    b"<U4 100000000000000000000000000>",
];

fn all_break(alloc: Global) -> bool {
    for (text, at) in BROKEN {
        if !is_refused(alloc, text, TextFault::Syntax { at }) {
            return false;
        }
    }
    true
}

fn all_are_outside(alloc: Global) -> bool {
    for text in OUTSIDE {
        if !is_refused(alloc, text, TextFault::Range { at: 4 }) {
            return false;
        }
    }
    true
}

#[test]
fn faults_have_their_places(rt: HostRuntime) {
    assert!(rt; all_break(rt.alloc()));
    assert!(rt; all_are_outside(rt.alloc()));
}

/// A hex digit in upper case, by its place in the alphabet.
fn digit(value: u8) -> u8 {
    if value < 10 {
        48 + value
    } else if value < 16 {
        55 + value
    } else {
        63
    }
}

fn stands_in_a_text(alloc: Global, byte: u8) -> bool {
    if (32..127).contains(&byte) && byte != 34 && byte != 92 {
        let text = [60, 65, 32, 34, byte, 34, 62];
        prints(alloc, &text, &text)
    } else {
        let (high, low) = (digit(byte / 16), digit(byte % 16));
        let text = [60, 65, 32, 34, 92, 120, high, low, 34, 62];
        prints(alloc, &text, &text)
    }
}

fn all_stand_in_texts(alloc: Global) -> bool {
    for byte in 0..=255u8 {
        if !stands_in_a_text(alloc, byte) {
            return false;
        }
    }
    true
}

#[test]
fn every_byte_stands_in_a_text(rt: HostRuntime) {
    assert!(rt; all_stand_in_texts(rt.alloc()));
}

/// A text in so many lists.
fn nested(alloc: Global, depth: usize, inner: &[u8]) -> Result<Row<u8>, NoMemory> {
    let mut text = Row::new(alloc);
    for _ in 0..depth {
        text.extend(b"<L ")?;
    }
    text.extend(inner)?;
    for _ in 0..depth {
        text.push(b'>')?;
    }
    Ok(text)
}

fn prints_nested(alloc: Global, depth: usize, inner: &[u8]) -> bool {
    match nested(alloc, depth, inner) {
        Ok(text) => prints(alloc, text.as_slice(), text.as_slice()),
        Err(_) => false,
    }
}

fn is_refused_nested(alloc: Global, inner: &[u8], fault: TextFault) -> bool {
    match nested(alloc, 64, inner) {
        Ok(text) => is_refused(alloc, text.as_slice(), fault),
        Err(_) => false,
    }
}

#[test]
fn lists_nest_64_deep(rt: HostRuntime) {
    let alloc = rt.alloc();
    assert!(rt; prints_nested(alloc, 63, b"<L>") && prints_nested(alloc, 64, b"<U1 1>"));
    let deep = TextFault::TooDeep { at: 192 };
    assert!(rt; is_refused_nested(alloc, b"<L>", deep));
    assert!(rt; is_refused_nested(alloc, b"<L", deep) && is_refused_nested(alloc, b"<LX", deep));
    assert!(rt; is_refused_nested(alloc, b"<X", TextFault::Syntax { at: 193 }));
}

/// An item of every kind.
const LONG: &[u8] =
    b"<L <A \"equipment \\x0A\\xFF one\"> <B 00 7F FF> <BOOLEAN 01 00> <J 41> <I1 -128 0 127> \
<I2 -32768> <L <L> <I4 2147483647> <I8 -9223372036854775808>> <U1 255> <U2 65535> <U4 7> <U8 0> <F4 3F800000> <F8 >>";

/// Whether a text's fronts all break at their ends.
fn fronts_need_more(alloc: Global, text: &[u8]) -> bool {
    for at in 0..text.len() {
        if !is_refused(alloc, &text[..at], TextFault::Syntax { at }) {
            return false;
        }
    }
    true
}

#[test]
fn a_front_of_a_text_needs_more(rt: HostRuntime) {
    assert!(rt; read(rt.alloc(), LONG).is_ok() && fronts_need_more(rt.alloc(), LONG));
}

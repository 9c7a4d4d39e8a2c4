use super::*;
use std::test::Fail;

type Line = ArrayVec<u8, 256>;

#[test]
fn puts_text_behind_text(rt: HostRuntime) -> Result<(), Fail> {
    let mut line = Line::new();
    put(&mut line, b"sent ");
    put(&mut line, b"on");
    assert!(rt; line.as_slice() == b"sent on".as_slice());
    Ok(())
}

#[test]
fn puts_a_word_where_its_bit_is_set(rt: HostRuntime) -> Result<(), Fail> {
    let mut line = Line::new();
    put_flag(&mut line, true, b" E");
    put_flag(&mut line, false, b" W");
    assert!(rt; line.as_slice() == b" E".as_slice());
    Ok(())
}

#[test]
fn puts_the_longest_number(rt: HostRuntime) -> Result<(), Fail> {
    let mut line = Line::new();
    put_number(&mut line, 0);
    put_number(&mut line, 18_446_744_073_709_551_615);
    assert!(rt; line.as_slice() == b"018446744073709551615".as_slice());
    Ok(())
}

#[test]
fn puts_names_of_messages(rt: HostRuntime) -> Result<(), Fail> {
    let mut line = Line::new();
    put_name(&mut line, 6, 11, true);
    put_name(&mut line, 127, 255, false);
    assert!(rt; line.as_slice() == b"S6F11 WS127F255".as_slice());
    Ok(())
}

#[test]
fn puts_bytes_in_hex(rt: HostRuntime) -> Result<(), Fail> {
    let mut line = Line::new();
    put_hex(&mut line, &[0x00, 0x1f, 0xa9]);
    assert!(rt; line.as_slice() == b"001FA9".as_slice());
    assert!(rt; &hex_word(0x0123_89EF) == b"012389EF");
    Ok(())
}

#[test]
fn reads_hex_digits_in_either_case(rt: HostRuntime) -> Result<(), Fail> {
    assert!(rt; digit_of(b'9') == Some(9));
    assert!(rt; digit_of(b'F') == Some(15) && digit_of(b'a') == Some(10));
    assert!(rt; digit_of(b'g').is_none());
    Ok(())
}

fn shows(byte: u8, text: &[u8]) -> bool {
    let mut line = Line::new();
    put_shown(&mut line, byte);
    line.as_slice() == text
}

#[test]
fn shows_bytes_of_a_text(rt: HostRuntime) -> Result<(), Fail> {
    assert!(rt; shows(b' ', b" ") && shows(b'~', b"~"));
    assert!(rt; shows(b'"', b"\\x22") && shows(b'\\', b"\\x5C"));
    assert!(rt; shows(0x0A, b"\\x0A") && shows(0x7F, b"\\x7F"));
    Ok(())
}

//! Bytes, bodies and texts put at the end of a line of the log.

ghost use Rattle.std.specs.Prelude.{◌≡◌, ◌++◌, OnErr, OnOk};
ghost use Rattle.std.specs.List.{flat_map};
ghost use Rattle.gl_base.specs.Rows.{Grows};
ghost use Rattle.hex.specs.Hex.{encode_upper};
ghost use Rattle.short_text.specs.Shown.{shown_text};
ghost use Rattle.trace_log.specs.Text.{body_text};

use arrayvec::ArrayVec;
use gl_base::{NoMemory, Row};
use short_text::{hex_byte, put_shown};

// Puts each byte as two upper-case hex digits.
pub(crate) fn put_bytes(bytes: &[u8], into: &mut Row<u8>) -> Result<(), NoMemory>
    ensures ok { OnOk result (into.new ≡ into.old ++ encode_upper bytes.now) }
    ensures err { OnErr result (Grows into.old into.new) }
{
    for byte in bytes {
        into.extend(&hex_byte(*byte))?;
    }
    Ok(())
}

// Puts a message's text in hex, or what stands for an empty one.
pub(crate) fn put_body(body: &[u8], into: &mut Row<u8>) -> Result<(), NoMemory>
    ensures { OnOk result (into.new ≡ into.old ++ body_text body.now) }
{
    if body.is_empty() {
        return into.extend(b"-");
    }
    put_bytes(body, into)
}

// Puts a text as it is shown.
pub(crate) fn put_text(text: &[u8], into: &mut Row<u8>) -> Result<(), NoMemory>
    ensures { OnOk result (into.new ≡ into.old ++ flat_map shown_text text.now) }
{
    for byte in text {
        let mut digits = ArrayVec::<u8, 4>::new();
        put_shown(&mut digits, *byte);
        into.extend(digits.as_slice())?;
    }
    Ok(())
}

//! The lines of a block with its message, up to the text of that, and of a character.

ghost use Rattle.std.specs.Prelude.{◌≡◌, ◌+◌, ◌++◌, ◌≤◌, length, decimal};
ghost use Rattle.arrayvec.specs.ArrayVec.{array_vec_len};
ghost use Rattle.line_show.specs.Capture.{is_character};
ghost use Rattle.line_show.specs.Lines.{block_head, block_text, block_way, character_name, character_text, flow_head, message_head, message_way};

use arrayvec::ArrayVec;
use block_codec::{ACK, Block, ENQ, EOT, Header};
use message_flow::{Flow, Message};
use short_text::{hex_word, put, put_flag, put_name, put_number};

/// Room for one line of text, but for a message's text.
pub type Line = ArrayVec<u8, 256>;

/// Puts the lines of a block at a place of the capture, up to the text of a message that it completes, behind what
/// stands in a page with room for 512 bytes more.
pub(crate) fn put_block_head<const N: usize>(
    line: &mut ArrayVec<u8, N>,
    place: usize,
    block: &Block,
    flow: &Flow,
)
    requires { array_vec_len line.old + 512 ≤ N }
    ensures { line.new.items ≡ line.old.items ++ block_head place block.now flow.now }
{
    let header = block.header();
    put_block_line(line, place, &header, block.body().len());
    put_flow_head(line, place, header.from_equipment, flow);
}

// Puts the line of a block that has so many bytes of body.
fn put_block_line<const N: usize>(
    line: &mut ArrayVec<u8, N>,
    place: usize,
    header: &Header,
    size: usize,
)
    requires { array_vec_len line.old + 256 ≤ N }
    ensures items { line.new.items ≡ line.old.items ++ block_text place header.now size }
    ensures len { array_vec_len line.new ≤ array_vec_len line.old + 256 }
{
    put_number(line, place as u64);
    put_block_way(line, header.from_equipment);
    put_number(line, u64::from(header.device));
    put(line, b" ");
    put_name(line, header.stream, header.function, header.wait);
    put(line, b" n=");
    put_number(line, u64::from(header.number));
    put_flag(line, header.last, b" E");
    put(line, b" sys=");
    put(line, &hex_word(header.system));
    put(line, b" bytes=");
    put_number(line, size as u64);
    put(line, b"\n");
}

// Puts what is shown of what a block is, up to a message's text.
fn put_flow_head<const N: usize>(
    line: &mut ArrayVec<u8, N>,
    place: usize,
    from_equipment: bool,
    flow: &Flow,
)
    requires { array_vec_len line.old + 256 ≤ N }
    ensures { line.new.items ≡ line.old.items ++ flow_head place from_equipment flow.now }
{
    match flow {
        Flow::Part | Flow::Foreign(_) => {}
        Flow::Whole(message, _) => put_message_head(line, place, from_equipment, message),
        Flow::Duplicate => put_place(line, place, b" duplicate\n"),
        Flow::Unexpected => put_place(line, place, b" unexpected\n"),
        Flow::TooLong => put_place(line, place, b" too long\n"),
        Flow::Crowded => put_place(line, place, b" crowded\n"),
    }
}

// Puts the line of a message whose last block begins at a place of the capture, up to the message's text.
fn put_message_head<const N: usize>(
    line: &mut ArrayVec<u8, N>,
    place: usize,
    from_equipment: bool,
    message: &Message,
)
    requires { array_vec_len line.old + 256 ≤ N }
    ensures { line.new.items ≡ line.old.items ++ message_head place from_equipment message.now }
{
    put_number(line, place as u64);
    put_message_way(line, from_equipment);
    put_name(line, message.stream, message.function, message.wait);
    put(line, b" sys=");
    put(line, &hex_word(message.system));
    put(line, b" ");
}

/// Puts the line of a character of the handshake at a place of the capture.
pub(crate) fn put_character_line<const N: usize>(line: &mut ArrayVec<u8, N>, place: usize, byte: u8)
    requires { array_vec_len line.old + 256 ≤ N }
    ensures { line.new.items ≡ line.old.items ++ character_text place byte }
{
    let name: &[u8] = match byte {
        ENQ => b" ENQ\n",
        EOT => b" EOT\n",
        ACK => b" ACK\n",
        _ => b" NAK\n",
    };
    put_place(line, place, name);
}

// Puts a place of the capture and a few words about it.
fn put_place<const N: usize>(line: &mut ArrayVec<u8, N>, place: usize, words: &[u8])
    requires words { length words.now ≤ 100 }
    requires room { array_vec_len line.old + 256 ≤ N }
    ensures { line.new.items ≡ line.old.items ++ (decimal place ++ words.now) }
{
    put_number(line, place as u64);
    put(line, words);
}

// Puts what follows the place in the line of a block, up to the device.
fn put_block_way<const N: usize>(line: &mut ArrayVec<u8, N>, from_equipment: bool)
    requires { array_vec_len line.old + 15 ≤ N }
    ensures items { line.new.items ≡ line.old.items ++ block_way from_equipment }
    ensures len { array_vec_len line.new ≡ array_vec_len line.old + 15 }
{
    put(
        line,
        if from_equipment {
            b" BLOCK E>H dev="
        } else {
            b" BLOCK H>E dev="
        },
    );
}

// Puts what follows the place in the line of a message, up to its name.
fn put_message_way<const N: usize>(line: &mut ArrayVec<u8, N>, from_equipment: bool)
    requires { array_vec_len line.old + 13 ≤ N }
    ensures items { line.new.items ≡ line.old.items ++ message_way from_equipment }
    ensures len { array_vec_len line.new ≡ array_vec_len line.old + 13 }
{
    put(
        line,
        if from_equipment {
            b" MESSAGE E>H "
        } else {
            b" MESSAGE H>E "
        },
    );
}

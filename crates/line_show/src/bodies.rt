//! What is shown of a message's text: its item, or the first fault in it.

ghost use Rattle.std.specs.Prelude.{◌≡◌, ◌≢◌, ◌++◌, ◌+◌, ◌≤◌, codes, decimal, length, OnErr, OnOk};
ghost use Rattle.arrayvec.specs.ArrayVec.{array_vec_len};
ghost use Rattle.secs_items.specs.declared.item_fault.ItemFault.TheVariants as faults;
ghost use Rattle.line_show.specs.Bodies.{body_text, fault_text};

use crate::lines::Line;
use gl_base::{NoMemory, Row};
use secs_items::{ItemFault, decode};
use secs_text::print;
use short_text::{put, put_number};
use std::alloc::Global;

/// Puts what is shown of a message's text at the end of the page. Where memory runs out it leaves the page as it was.
pub(crate) fn put_body(alloc: Global, page: &mut Row<u8>, body: &[u8]) -> Result<(), NoMemory>
    ensures ok { OnOk result (page.new ≡ page.old ++ body_text body.now) }
    ensures err { OnErr result (page.new ≡ page.old) }
{
    if body.is_empty() {
        return page.extend(b"-");
    }
    match decode(alloc, body) {
        Ok(item) => print(&item, page),
        Err(fault) => put_bad(page, fault),
    }
}

// Puts what is shown of a text with this fault, which may be that memory ran out.
fn put_bad(page: &mut Row<u8>, fault: ItemFault) -> Result<(), NoMemory>
    ensures ok { OnOk result (page.new ≡ page.old ++ (codes "bad " ++ fault_text fault)) }
    ensures named { OnOk result (fault ≢ faults.NoMemory) }
    ensures err { OnErr result (page.new ≡ page.old) }
{
    match fault {
        ItemFault::NoMemory => Err(NoMemory),
        _ => page.extend(&bad_line(fault)),
    }
}

// What is shown of a text with this fault.
fn bad_line(fault: ItemFault) -> Line
    ensures { result.items ≡ codes "bad " ++ fault_text fault }
{
    let mut line = Line::new();
    put(&mut line, b"bad ");
    put_fault(&mut line, fault);
    line
}

/// Puts a fault's name and place at the end of a line that has room for 40 bytes more; nothing for the want of memory.
pub fn put_fault(line: &mut Line, fault: ItemFault)
    requires { array_vec_len line.old + 40 ≤ 256 }
    ensures items { line.new.items ≡ line.old.items ++ fault_text fault }
    ensures len { array_vec_len line.new ≤ array_vec_len line.old + 40 }
{
    match fault {
        ItemFault::Short { at } => put_place(line, b"Short at ", at),
        ItemFault::BadCode { at } => put_place(line, b"BadCode at ", at),
        ItemFault::NoLengthBytes { at } => put_place(line, b"NoLengthBytes at ", at),
        ItemFault::Uneven { at } => put_place(line, b"Uneven at ", at),
        ItemFault::TooDeep { at } => put_place(line, b"TooDeep at ", at),
        ItemFault::Trailing { at } => put_place(line, b"Trailing at ", at),
        ItemFault::NoMemory => {}
    }
}

// Puts a few words and a place.
fn put_place(line: &mut Line, words: &[u8], at: usize)
    requires words { length words.now ≤ 20 }
    requires room { array_vec_len line.old + 40 ≤ 256 }
    ensures items { line.new.items ≡ line.old.items ++ (words.now ++ decimal at) }
    ensures len { array_vec_len line.new ≤ array_vec_len line.old + 40 }
{
    put(line, words);
    put_number(line, at as u64);
}

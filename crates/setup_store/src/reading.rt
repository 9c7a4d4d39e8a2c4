//! A list of entries, read from left to right.

ghost use Rattle.std.specs.Prelude.{◌≡◌, ◌+◌, ◌<◌, ◌≤◌, Err, IfErr, IfOk, IfSome, IsErr, None, Ok, length};
ghost use Rattle.setup_store.specs.Entries.{bad_byte, break_of, ends_at, entries_in, entry_of, first_in, has_room, head_break};

use crate::entry::{EntryView, is_kept, is_kept_stream};
use spool_file::NotSpool;

// How many bytes of a list are kept.
const MOST_KEPT: usize = 262_144;

// How many bytes stand before a body.
const HEAD: usize = 6;

/// Whether a list of these bytes can be kept: it has at most 262,144.
pub fn has_room(list: &[u8]) -> bool
    ensures { result ≡ has_room list.now }
{
    list.len() <= MOST_KEPT
}

/// Where bytes break that are to be a list of entries: the first byte that no such list has there, or, where they end
/// within an entry, their end without a byte. `None` exactly where they are a list of entries.
pub fn list_break(list: &[u8]) -> Option<NotSpool>
    ensures breaks { result ≡ break_of (entries_in list.now) }
    ensures within { IfSome result (λ e. e.at ≤ length list.now) }
{
    let mut rest = list;
    'entries: while !rest.is_empty() {
        match first_of(list.len(), rest) {
            Ok((_, behind)) => rest = behind,
            Err(found) => return Some(found),
        }
    }
    None
}

/// The first entry of a list, and the list behind it; `None` where no entry stands in front.
pub fn first_entry(list: &[u8]) -> Option<(EntryView<'_>, &[u8])>
    ensures there { IfSome result (λ x. first_in (length list.now) list.now ≡ Ok (entry_of x.0, x.1.now)) }
    ensures none { result ≡ None → IsErr (first_in (length list.now) list.now) }
    ensures within { IfSome result (λ x. length x.0.body.now + length x.1.now < length list.now) }
{
    first_of(list.len(), list).ok()
}

// The entry in front of the last bytes of a list, which has so many in all, and the bytes behind it.
fn first_of(total: usize, bytes: &[u8]) -> Result<(EntryView<'_>, &[u8]), NotSpool>
    requires { length bytes.now ≤ total }
    ensures ok { IfOk result (λ x. first_in total bytes.now ≡ Ok (entry_of x.0, x.1.now)) }
    ensures within { IfOk result (λ x. length x.0.body.now + length x.1.now < length bytes.now) }
    ensures err { IfErr result (λ e. first_in total bytes.now ≡ Err e) }
    ensures place { IfErr result (λ e. e.at ≤ total) }
{
    if let Some(found) = head_break(total, bytes) {
        return Err(found);
    }
    let (head, rest) = bytes.split_at(HEAD);
    let len = u32::from_be_bytes([head[2], head[3], head[4], head[5]]) as usize;
    if len > rest.len() {
        return Err(ends_at(total));
    }
    let (body, behind) = rest.split_at(len);
    let entry = EntryView {
        stream: head[0],
        function: head[1],
        body,
    };
    Ok((entry, behind))
}

// Where the first six bytes break.
fn head_break(total: usize, bytes: &[u8]) -> Option<NotSpool>
    requires { length bytes.now ≤ total }
    ensures place { result ≡ head_break total bytes.now }
    ensures within { IfSome result (λ e. e.at ≤ total) }
    ensures whole { result ≡ None → 6 ≤ length bytes.now }
{
    if bytes.is_empty() {
        return Some(ends_at(total));
    }
    if !is_kept_stream(bytes[0]) {
        return Some(bad_byte(total, bytes, 0));
    }
    if bytes.len() == 1 {
        return Some(ends_at(total));
    }
    if !is_kept(bytes[0], bytes[1]) {
        return Some(bad_byte(total, bytes, 1));
    }
    if bytes.len() < HEAD {
        return Some(ends_at(total));
    }
    None
}

fn ends_at(total: usize) -> NotSpool
    ensures there { result ≡ ends_at total }
    ensures place { result.at ≤ total }
{
    NotSpool {
        at: total as u64,
        got: None,
    }
}

fn bad_byte(total: usize, bytes: &[u8], k: usize) -> NotSpool
    requires long { length bytes.now ≤ total }
    requires there { k < length bytes.now }
    ensures there { result ≡ bad_byte total bytes.now k }
    ensures place { result.at ≤ total }
{
    NotSpool {
        at: (total - bytes.len() + k) as u64,
        got: Some(bytes[k]),
    }
}

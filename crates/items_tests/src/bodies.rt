//! Bodies that come in pieces, by their verdicts.

use gl_base::{NoMemory, Row};
use secs_items::{BodyCheck, ItemFault, Kind, Verdict, check, view};
use std::alloc::Global;
use std::mem::size_of;

/// Goes on with a piece, where it and all before are as short as those of these tests.
fn feed(check: &mut BodyCheck, piece: &[u8]) -> bool {
    if check.fed() > 1_000 || piece.len() > 1_000 {
        return false;
    }
    check.feed(piece);
    true
}

/// Feeds all, in pieces of so many bytes.
fn feed_in(check: &mut BodyCheck, bytes: &[u8], size: usize) -> bool {
    let mut rest = bytes;
    for _ in 0..bytes.len() {
        let (piece, behind) = rest.split_at(size.min(rest.len()));
        if !feed(check, piece) {
            return false;
        }
        rest = behind;
    }
    rest.is_empty()
}

/// Whether this is the verdict of the bytes in pieces of so many, and so many were fed.
fn is_verdict_in(bytes: &[u8], size: usize, verdict: Verdict) -> bool {
    let mut check = BodyCheck::new();
    size > 0
        && feed_in(&mut check, bytes, size)
        && check.verdict() == verdict
        && check.fed() as usize == bytes.len()
}

/// Whether it is the verdict of the bytes cut there.
fn is_verdict_cut(bytes: &[u8], place: usize, verdict: Verdict) -> bool {
    let mut check = BodyCheck::new();
    let (first, second) = bytes.split_at(place.min(bytes.len()));
    feed(&mut check, first) && feed(&mut check, second) && check.verdict() == verdict
}

/// Whether it is the verdict byte by byte, and cut at every place.
fn is_verdict(bytes: &[u8], verdict: Verdict) -> bool {
    for place in 0..bytes.len() + 1 {
        if !is_verdict_cut(bytes, place, verdict) {
            return false;
        }
    }
    is_verdict_in(bytes, 1, verdict)
}

/// What `check` says of all of the bytes.
fn verdict_of(bytes: &[u8]) -> Verdict {
    if bytes.is_empty() {
        return Verdict::Empty;
    }
    match check(bytes) {
        Ok(_) => Verdict::Whole,
        Err(fault) => Verdict::Broken(fault),
    }
}

fn broken_short(at: usize) -> Verdict {
    Verdict::Broken(ItemFault::Short { at })
}

#[test]
fn verdicts_of_nothing_and_of_items(rt: HostRuntime) {
    assert!(rt; is_verdict(&[], Verdict::Empty));
    assert!(rt; is_verdict(&[0x41, 2, 0x41, 0x42], Verdict::Whole));
    assert!(rt; is_verdict(&[0xB2, 0, 4, 0, 0, 0, 5], Verdict::Whole));
    assert!(rt;
        is_verdict(
            &[0x03, 0, 0, 2, 0x01, 0, 0x43, 0, 0, 1, 0x41],
            Verdict::Whole
        )
    );
    assert!(rt; is_verdict(&[0x01, 2, 0x01, 1, 0x01, 0, 0x21, 0], Verdict::Whole));
}

#[test]
fn verdicts_at_the_end(rt: HostRuntime) {
    assert!(rt; is_verdict(&[0x41, 2], broken_short(2)));
    assert!(rt; is_verdict(&[0x41, 2, 0x41], broken_short(3)));
    assert!(rt; is_verdict(&[0x43, 0, 0], broken_short(3)));
    assert!(rt; is_verdict(&[0x01, 2, 0x01, 0], broken_short(4)));
    assert!(rt;
        is_verdict(
            &[0x41, 2, 0x41, 0x42, 0],
            Verdict::Broken(ItemFault::Trailing { at: 4 })
        )
    );
    assert!(rt;
        is_verdict(
            &[0x01, 0, 0],
            Verdict::Broken(ItemFault::Trailing { at: 2 })
        )
    );
}

#[test]
fn verdicts_at_a_head(rt: HostRuntime) {
    assert!(rt; is_verdict(&[0xB0], Verdict::Broken(ItemFault::NoLengthBytes { at: 0 })));
    assert!(rt; is_verdict(&[0x49, 0], Verdict::Broken(ItemFault::BadCode { at: 0 })));
    assert!(rt; is_verdict(&[0xB1, 3], Verdict::Broken(ItemFault::Uneven { at: 0 })));
    assert!(rt;
        is_verdict(
            &[0xB1, 3, 0, 0, 0],
            Verdict::Broken(ItemFault::Uneven { at: 0 })
        )
    );
    assert!(rt;
        is_verdict(
            &[0x01, 1, 0xA2, 1, 1, 7],
            Verdict::Broken(ItemFault::Uneven { at: 2 })
        )
    );
}

/// So many lists of one, and the length of a further one in them.
fn nested(alloc: Global, lists: usize, length: u8) -> Result<Row<u8>, NoMemory> {
    let mut bytes = Row::new(alloc);
    for _ in 0..lists {
        bytes.extend(&[0x01, 1])?;
    }
    bytes.extend(&[0x01, length])?;
    Ok(bytes)
}

fn is_nested_verdict(alloc: Global, lists: usize, length: u8, verdict: Verdict) -> bool {
    match nested(alloc, lists, length) {
        Ok(bytes) => is_verdict(bytes.as_slice(), verdict),
        Err(_) => false,
    }
}

#[test]
fn verdicts_of_nested_lists(rt: HostRuntime) {
    let deep = Verdict::Broken(ItemFault::TooDeep { at: 128 });
    assert!(rt; is_nested_verdict(rt.alloc(), 63, 0, Verdict::Whole));
    assert!(rt; is_nested_verdict(rt.alloc(), 63, 1, broken_short(128)));
    assert!(rt; is_nested_verdict(rt.alloc(), 64, 0, deep));
    assert!(rt; is_nested_verdict(rt.alloc(), 64, 1, deep));
}

/// A binary of 256 bytes, of which 241 come with the first block.
#[test]
fn verdicts_block_by_block(rt: HostRuntime) {
    let mut check = BodyCheck::new();
    assert!(rt; feed(&mut check, &[0x42, 1, 0]) && feed(&mut check, &[0x41; 241]));
    assert!(rt; check.fed() == 244 && check.verdict() == broken_short(244));
    assert!(rt; feed(&mut check, &[0x41; 15]));
    assert!(rt; check.fed() == 259 && check.verdict() == Verdict::Whole);
}

/// Lists, numbers and texts of 300 bytes in all.
fn nested_300(alloc: Global) -> Result<Row<u8>, NoMemory> {
    let mut bytes = Row::new(alloc);
    bytes.extend(&[0x01, 24])?;
    for _ in 0..23 {
        bytes.extend(&[0x02, 0, 2, 0x01, 0, 0xB1, 4, 0, 0, 0, 7])?;
    }
    bytes.extend(&[0x43, 0, 0, 41])?;
    bytes.extend(&[0x41; 41])?;
    Ok(bytes)
}

/// Whether the front of so many bytes has the verdict of `check`, in three cuttings.
fn front_agrees(bytes: &[u8], len: usize) -> bool {
    let (front, _) = bytes.split_at(len.min(bytes.len()));
    let verdict = verdict_of(front);
    is_verdict_in(front, 1, verdict)
        && is_verdict_in(front, 7, verdict)
        && is_verdict_in(front, 244, verdict)
}

/// Whether each shorter front ends too early, and all of it is whole.
fn fronts_agree(bytes: &[u8]) -> bool {
    for len in 1..bytes.len() {
        if !front_agrees(bytes, len) || !is_verdict_cut(bytes, len, Verdict::Whole) {
            return false;
        }
    }
    bytes.len() == 300 && front_agrees(bytes, 300)
}

#[test]
fn verdicts_of_fronts(rt: HostRuntime) {
    assert!(rt; nested_300(rt.alloc()).is_ok_and(|bytes| fronts_agree(bytes.as_slice())));
}

/// Whether the view by a check shows the item that `check` shows.
fn is_viewed(bytes: &[u8], len: usize) -> bool {
    let mut body = BodyCheck::new();
    if body.fed() > 1_000 || bytes.len() > 1_000 {
        return false;
    }
    body.feed(bytes);
    body.verdict() == Verdict::Whole
        && {
            let item = view(bytes, &body);
            item.kind() == Kind::L && item.len() == len
        }
}

#[test]
fn views_by_a_check(rt: HostRuntime) {
    assert!(rt; is_viewed(&[0x01, 2, 0x01, 0, 0xB1, 4, 0, 0, 0, 7], 2));
    assert!(rt; !is_viewed(&[0x01, 2, 0x01, 0, 0xB1, 4, 0, 0, 0], 2));
}

/// A check says at each piece what holds of the bytes so far.
#[test]
fn verdicts_come_at_each_piece(rt: HostRuntime) {
    let mut check = BodyCheck::new();
    assert!(rt; feed(&mut check, &[0x41]) && check.verdict() == broken_short(1));
    assert!(rt; feed(&mut check, &[2]) && check.verdict() == broken_short(2));
    assert!(rt; feed(&mut check, &[0x41, 0x42]) && check.verdict() == Verdict::Whole);
}

/// A check is small, and a copy of it goes on by itself.
#[test]
fn checks_are_copied(rt: HostRuntime) {
    let mut check = BodyCheck::new();
    assert!(rt; size_of::<BodyCheck>() <= 320 && feed(&mut check, &[0x41, 1]));
    let mut copy = check;
    assert!(rt; feed(&mut copy, &[0x41]) && copy.verdict() == Verdict::Whole);
    assert!(rt; check.fed() == 2 && check.verdict() == broken_short(2));
}

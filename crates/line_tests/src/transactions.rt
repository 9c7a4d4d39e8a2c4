//! Transactions with their replies and T3, and the numbers of primaries.

use block_codec::Header;
use std::alloc::Global;
use std::test::Fail;
use transact::{Beginning, Match, Numbers, Transactions};

// A header of a message in one block, of device 0.
fn header(system: u32, stream: u8, function: u8, wait: bool, from_equipment: bool) -> Header {
    Header {
        from_equipment,
        device: 0,
        wait,
        stream,
        function,
        last: true,
        number: 1,
        system,
    }
}

// How the transaction of the host's S1F1 W begins. Its kind is 7.
fn begins(transactions: &mut Transactions<u8>, system: u32) -> Result<(), Beginning> {
    let primary = Header {
        from_equipment: false,
        device: 0,
        wait: true,
        stream: 1,
        function: 1,
        last: true,
        number: 1,
        system,
    };
    transactions.begin(primary, 7)
}

// Whether the transactions of these and of all system bytes between begin.
fn all_begin(transactions: &mut Transactions<u8>, first: u32, last: u32) -> bool {
    for system in first..=last {
        if begins(transactions, system).is_err() {
            return false;
        }
    }
    true
}

// What a message is to the open transaction of S1F1 W with system bytes 5.
fn told(alloc: Global, secondary: Header) -> Option<Match<u8>> {
    let mut transactions = Transactions::new(alloc, 45_000);
    begins(&mut transactions, 5).ok()?;
    Some(transactions.answer(&secondary))
}

#[test]
fn begins_once_and_at_most_64(rt: HostRuntime) -> Result<(), Fail> {
    let mut transactions = Transactions::new(rt.alloc(), 45_000);
    assert_eq!(rt; begins(&mut transactions, 5), Ok(()));
    assert_eq!(rt; begins(&mut transactions, 5), Err(Beginning::Same(5)));
    assert!(rt; all_begin(&mut transactions, 100, 162));
    assert_eq!(rt; begins(&mut transactions, 200), Err(Beginning::Full));
    assert_eq!(rt; begins(&mut transactions, 162), Err(Beginning::Same(162)));
    let stranger = header(9, 1, 2, false, true);
    assert_eq!(rt; transactions.answer(&stranger), Match::Stranger);
    assert_eq!(rt; transactions.len(), 64);
    Ok(())
}

#[test]
fn answers_by_header(rt: HostRuntime) -> Result<(), Fail> {
    let cases = [
        (header(5, 1, 2, false, true), Match::Reply(7)),
        (header(5, 1, 0, false, true), Match::Abort(7)),
        (header(9, 1, 2, false, true), Match::Stranger),
        (header(5, 2, 2, false, true), Match::Stranger),
        (header(5, 1, 4, false, true), Match::Stranger),
        (header(5, 1, 2, true, true), Match::Stranger),
        (header(5, 1, 2, false, false), Match::Stranger),
    ];
    for (secondary, wanted) in cases {
        assert_eq!(rt; told(rt.alloc(), secondary), Some(wanted));
    }
    Ok(())
}

#[test]
fn runs_out_in_order(rt: HostRuntime) -> Result<(), Fail> {
    let mut transactions = Transactions::new(rt.alloc(), 45_000);
    assert!(rt; all_begin(&mut transactions, 5, 6));
    assert_eq!(rt; transactions.deadline(), None);
    assert!(rt; transactions.sent(6, 100) && transactions.sent(5, 200) && !transactions.sent(9, 0));
    assert_eq!(rt; transactions.deadline(), Some(45_100));
    assert!(rt; transactions.tick(45_099).is_none());
    let first = transactions.tick(45_200).ok_or("none is due")?;
    assert_eq!(rt; (first.0.system, first.1), (5, 7));
    let part = header(6, 1, 2, false, true);
    assert!(rt; transactions.reply_began(&part));
    assert_eq!(rt; transactions.deadline(), None);
    assert!(rt; transactions.tick(1_000_000).is_none());
    assert_eq!(rt;
        transactions.first().map(|primary| primary.0.system),
        Some(6)
    );
    assert_eq!(rt; transactions.end(6), Some(7));
    assert_eq!(rt; transactions.end(6), None);
    assert!(rt; !transactions.reply_began(&part) && transactions.first().is_none());
    Ok(())
}

#[test]
fn draws_each_number_once(rt: HostRuntime) -> Result<(), Fail> {
    let mut last = Numbers::new(4_294_967_295, 1);
    assert_eq!(rt; last.left(), 1);
    assert_eq!(rt; last.draw(), Some(4_294_967_295));
    assert_eq!(rt; last.draw(), None);
    let mut numbers = Numbers::new(0, 2);
    assert_eq!(rt;
        (numbers.draw(), numbers.draw(), numbers.draw()),
        (Some(0), Some(1), None)
    );
    assert_eq!(rt; numbers.left(), 0);
    Ok(())
}

//! The transactions of one side, from the primary that begins one to the reply or the T3 that ends it.

ghost use Rattle.std.specs.Prelude.{false, ◌≡◌, ◌+◌, ◌^◌, ◌<◌, ◌≤◌, [], ◌∷◌, Some, None, length, min, slice_get, IfNone, IfSome, OnErr, OnOk};
ghost use Rattle.std.specs.List.{filter_map, find, list_any, position, reduce};
ghost use Rattle.std.specs.Option.{option_map};
ghost use Rattle.transact.specs.declared.begun.Begun.{Begun};
ghost use Rattle.transact.specs.declared.transactions.Match.TheVariants.{Stranger};
ghost use Rattle.transact.specs.Matching.{AwaitsReply};
ghost use Rattle.transact.specs.Transactions.{AtFirst, BeginAnswer, IsOpen, IsTransactions, PrimaryFits, TransactionsView, deadline_of, has_system, is_answered_by, is_due, kind_of, match_of, primary_of, with_deadline, with_primary, without_first};

use crate::begun::Begun;
use block_codec::Header;
use std::alloc::Global;
use std::marker::Model;

// The most transactions that are open.
const MOST: usize = 64;

/// Why a primary does not begin a transaction.
#[derive(Clone, Copy, Debug, PartialEq, Eq)]
pub enum Beginning {
    /// An open transaction has the primary's system bytes, these.
    Same(u32),
    /// 64 transactions are open.
    Full,
    /// Memory ran out.
    NoMemory,
}

/// What a message is that came, by its header.
#[derive(Clone, Copy, Debug, PartialEq, Eq)]
pub enum Match<K> {
    /// The reply to a primary of this kind.
    Reply(K),
    /// Function 0: the other side gave up the transaction of a primary of this kind.
    Abort(K),
    /// It answers no open transaction.
    Stranger,
}

/// The transactions of one side: its primaries that await a reply, in the order in which they began, each with its
/// kind, a `K`, and with T3 where it runs. Only `begin` takes memory. No call takes longer than in proportion to how
/// many are open.
#[derive(Debug, Drop)]
pub struct Transactions<K> {
    t3: u32,
    begun: Vec<Begun<K>>,
}

impl<K> Model for Transactions<K> {
    ghost use Rattle.transact.specs.Transactions.{IsTransactions, TransactionsView};

    ghost Value = { TransactionsView K };

    ghost view = { λ inside. record { t3 = inside.t3; begun = inside.begun.items } };

    ghost invariant = { λ inside. IsTransactions (record { t3 = inside.t3; begun = inside.begun.items }) };
}

impl<K: Copy> Transactions<K> {
    /// No transaction is open. T3 is in milliseconds. No memory is taken yet.
    pub fn new(alloc: Global, t3: u32) -> Transactions<K>
        ensures { result ≡ record { t3 = t3; begun = [] } }
    {
        Transactions {
            t3,
            begun: Vec::new(alloc),
        }
    }

    /// How many transactions are open.
    pub fn len(&self) -> usize
        ensures len { result ≡ length self.now.begun }
        ensures few { result ≤ 64 }
        ensures is_transactions { IsTransactions self.now }
    {
        self.begun.len()
    }

    /// Begins the transaction of a primary, the last in order. T3 does not run on it yet.
    ///
    /// `Same` exactly where an open transaction has the primary's system bytes; else `Full` exactly where 64 are
    /// open. Where it is refused, and where memory runs out, nothing changes.
    pub fn begin(&mut self, header: Header, kind: K) -> Result<(), Beginning>
        requires { AwaitsReply header }
        ensures ok { OnOk result (self.new ≡ with_primary header kind self.old) }
        ensures err { OnErr result (self.new ≡ self.old) }
        ensures answer { BeginAnswer self.old header result }
    {
        if self.is_open(header.system) {
            return Err(Beginning::Same(header.system));
        }
        if self.begun.len() == MOST {
            return Err(Beginning::Full);
        }
        let begun = Begun {
            header,
            kind,
            deadline: None,
        };
        match self.begun.push(begun) {
            Ok(()) => Ok(()),
            Err(_failed) => Err(Beginning::NoMemory),
        }
    }

    /// The other end acknowledged, at this moment, the last block of the primary with these system bytes, and T3 runs
    /// from then on, also where it ran before. `true` exactly where the transaction is open; else nothing changes.
    /// Moments are in milliseconds.
    pub fn sent(&mut self, system: u32, now: u64) -> bool
        requires { now < 2 ^ 62 }
        ensures is_open { result ≡ list_any (has_system system) self.old.begun }
        ensures runs { self.new ≡ with_deadline (has_system system) (Some (now + self.old.t3)) self.old }
        ensures unknown { result ≡ false → self.new ≡ self.old }
    {
        let place = self.place_of(system);
        let deadline = now + u64::from(self.t3);
        self.put_deadline(place, Some(deadline))
    }

    /// A block with this header came, of a message that is not whole yet. T3 stops on the transaction that it
    /// answers. `true` exactly where it answers an open one; else nothing changes.
    pub fn reply_began(&mut self, header: &Header) -> bool
        ensures is_answer { result ≡ list_any (is_answered_by header.now) self.old.begun }
        ensures stops { self.new ≡ with_deadline (is_answered_by header.now) None self.old }
        ensures stranger { result ≡ false → self.new ≡ self.old }
    {
        let place = self.place_answered(header);
        self.put_deadline(place, None)
    }

    /// A message with this header came. The transaction that it answers ends; there is at most one, since no two have
    /// the same system bytes.
    ///
    /// `Abort` where it answers with function 0, `Reply` where with another. `Stranger` exactly where it answers no
    /// open transaction, and then nothing changes.
    pub fn answer(&mut self, header: &Header) -> Match<K>
        ensures answer { result ≡ match_of header.now (find (is_answered_by header.now) self.old.begun) }
        ensures rest { self.new ≡ without_first (is_answered_by header.now) self.old }
        ensures stranger { result ≡ Stranger → self.new ≡ self.old }
    {
        let place = self.place_answered(header);
        match self.take_out(place) {
            None => Match::Stranger,
            Some(begun) if header.function == 0 => Match::Abort(begun.kind),
            Some(begun) => Match::Reply(begun.kind),
        }
    }

    /// The header of the primary that a message with this header answers, and its kind. `None` exactly where it answers
    /// no open one.
    pub fn answered(&self, header: &Header) -> Option<(Header, K)>
        ensures primary { result ≡ option_map primary_of (find (is_answered_by header.now) self.now.begun) }
        ensures fits { PrimaryFits result }
    {
        self.begun
            .iter()
            .find(|begun| begun.is_answered_by(header))
            .map(|begun| (begun.header, begun.kind))
    }

    /// The header of the primary whose transaction began first, and its kind. `None` exactly where none is open.
    pub fn first(&self) -> Option<(Header, K)>
        ensures primary { result ≡ option_map primary_of (slice_get self.now.begun 0) }
        ensures fits { PrimaryFits result }
    {
        self.begun.first().map(|begun| (begun.header, begun.kind))
    }

    /// The header of the primary at this place of the order in which they began, from 0, and its kind. `None` exactly
    /// where no more are open. There are few of them, and no two have the same system bytes.
    pub fn open_at(&self, place: usize) -> Option<(Header, K)>
        ensures primary { result ≡ option_map primary_of (slice_get self.now.begun place) }
        ensures is_transactions { IsTransactions self.now }
    {
        self.begun
            .get(place)
            .map(|begun| (begun.header, begun.kind))
    }

    /// Ends the transaction with these system bytes, and gives its kind. `None` exactly where no open one has them;
    /// then nothing changes.
    pub fn end(&mut self, system: u32) -> Option<K>
        ensures kind { result ≡ option_map kind_of (find (has_system system) self.old.begun) }
        ensures rest { self.new ≡ without_first (has_system system) self.old }
        ensures none { IfNone result (self.new ≡ self.old) }
    {
        let place = self.place_of(system);
        let begun = self.take_out(place)?;
        Some(begun.kind)
    }

    /// Ends one transaction on which T3 has run out by this moment: of several, the one that began first. The answer
    /// is its primary's header and kind. `None` exactly where T3 has run out on none; then nothing changes.
    pub fn tick(&mut self, now: u64) -> Option<(Header, K)>
        ensures primary { result ≡ option_map primary_of (find (is_due now) self.old.begun) }
        ensures fits { PrimaryFits result }
        ensures rest { self.new ≡ without_first (is_due now) self.old }
        ensures none { IfNone result (self.new ≡ self.old) }
    {
        let place = self.place_due(now);
        let begun = self.take_out(place)?;
        Some((begun.header, begun.kind))
    }

    /// When T3 runs out next: the least moment of all transactions on which it runs. `None` exactly where it runs on
    /// none.
    pub fn deadline(&self) -> Option<u64>
        ensures { result ≡ reduce min (filter_map deadline_of self.now.begun) }
    {
        self.begun.iter().filter_map(|begun| begun.deadline).min()
    }

    /// Whether an open transaction has these system bytes.
    pub fn is_open(&self, system: u32) -> bool
        ensures { result ≡ list_any (has_system system) self.now.begun }
    {
        self.begun.iter().any(|begun| begun.has_system(system))
    }

    // The place of the transaction with these system bytes.
    fn place_of(&self, system: u32) -> Option<usize>
        ensures { result ≡ position (has_system system) self.now.begun }
    {
        self.begun.iter().position(|begun| begun.has_system(system))
    }

    // The first place of a transaction that a header answers.
    fn place_answered(&self, header: &Header) -> Option<usize>
        ensures { result ≡ position (is_answered_by header.now) self.now.begun }
    {
        self.begun
            .iter()
            .position(|begun| begun.is_answered_by(header))
    }

    // The first place of a transaction on which T3 has run out.
    fn place_due(&self, now: u64) -> Option<usize>
        ensures { result ≡ position (is_due now) self.now.begun }
    {
        self.begun.iter().position(|begun| begun.is_due(now))
    }

    // Takes out the transaction at the place where the first one of some test stands, if one does.
    fn take_out(&mut self, place: Option<usize>) -> Option<Begun<K>>
        requires { IfSome place (λ at. at < length self.old.begun) }
        ensures found { AtFirst self.old.begun place (λ test. result ≡ find test self.old.begun) }
        ensures open { IfSome result IsOpen }
        ensures rest { AtFirst self.old.begun place (λ test. self.new ≡ without_first test self.old) }
        ensures none { IfNone result (self.new ≡ self.old) }
    {
        let Some(place) = place else {
            return None;
        };
        Some(self.begun.remove(place))
    }

    // Gives this deadline to the transaction at the place where the first one of some test stands, if one does.
    fn put_deadline(&mut self, place: Option<usize>, deadline: Option<u64>) -> bool
        requires { IfSome place (λ at. at < length self.old.begun) }
        ensures found { AtFirst self.old.begun place (λ test. result ≡ list_any test self.old.begun) }
        ensures timed { AtFirst self.old.begun place (λ test. self.new ≡ with_deadline test deadline self.old) }
        ensures none { result ≡ false → self.new ≡ self.old }
    {
        let Some(place) = place else {
            return false;
        };
        self.begun[place].deadline = deadline;
        true
    }
}

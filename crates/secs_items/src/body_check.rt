//! A body that is checked piece by piece, as it comes.

ghost use Rattle.std.specs.Prelude.{◌≡◌, ◌≢◌, ◌+◌, ◌-◌, ◌*◌, ◌<◌, ◌≤◌, ℕ, List, true, false, [], ◌++◌, length};
ghost use Rattle.secs_items.specs.declared.item_fault.ItemFault.TheVariants as fault;
ghost use Rattle.secs_items.specs.declared.verdict.Verdict.TheVariants as verdict;
ghost use Rattle.secs_items.specs.Checking.{IsIdle, MayPass, behind_head, behind_format, behind_item, check_of, fed_with, heads_list, is_memory, passed, verdict_now, verdict_of, with_byte};
ghost use Rattle.secs_items.specs.Kinds.{is_list};
ghost use Rattle.secs_items.specs.Reading.{format_at};

use crate::head::format_of;
use crate::item::MAX_DEPTH;
use crate::item_fault::ItemFault;
use crate::kind::Kind;
use crate::open_lists::OpenLists;
use crate::point::Point;
use crate::verdict::Verdict;
use std::marker::Model;

/// A check of bytes that come in pieces. It keeps none of them and takes no memory.
#[derive(Clone, Copy, Debug)]
pub struct BodyCheck {
    fed: u32,
    lists: OpenLists,
    point: Point,
}

impl Model for BodyCheck {
    ghost use Rattle.std.specs.Prelude.{◌≡◌, ◌<◌, true, false, length};
    ghost use Rattle.secs_items.specs.Checking.{Checking, heads_list, is_memory};

    ghost Value = { Checking };

    ghost view = { λ c. record { fed = c.fed; lists = c.lists; point = c.point } };

    // A list's head stands in at most 63 others, and no fault is want of memory.
    ghost invariant = { λ c. (heads_list c.point ≡ true → length c.lists < 64) × (is_memory c.point ≡ false) };

    ghost inverse = { λ c. record { fed = c.fed; lists = c.lists; point = c.point } };
}

impl BodyCheck {
    /// The check of no bytes.
    pub fn new() -> BodyCheck
        ensures { result ≡ check_of [] }
    {
        BodyCheck {
            fed: 0,
            lists: OpenLists::none(),
            point: Point::Format,
        }
    }

    /// Goes on with more bytes. It passes over content in one move, so it takes as long as the piece has heads.
    pub fn feed(&mut self, piece: &[u8])
        // No body of SECS-I is longer.
        requires { self.old.fed + length piece.now ≤ 7995148 }
        ensures counted { self.new.fed ≡ self.old.fed + length piece.now }
        // The check of what came before becomes that of all.
        ensures stands { (past : List ℕ) → self.old ≡ check_of past → self.new ≡ check_of (past ++ piece.now) }
    {
        self.feed_all(piece);
    }

    /// How many bytes it was fed.
    pub fn fed(&self) -> u32
        ensures shown { result ≡ self.now.fed }
        ensures stands { (bytes : List ℕ) → self.now ≡ check_of bytes → result ≡ length bytes }
    {
        self.fed
    }

    /// What `check` would say of all that it was fed, but that no bytes at all are `Empty`.
    pub fn verdict(&self) -> Verdict
        ensures stands { (bytes : List ℕ) → self.now ≡ check_of bytes → result ≡ verdict_of bytes }
        // It never says that memory ran out.
        ensures memory { result ≢ verdict.Broken fault.NoMemory }
    {
        self.verdict_now()
    }

    fn verdict_now(&self) -> Verdict
        ensures now { result ≡ verdict_now self.now }
        ensures memory { result ≢ verdict.Broken fault.NoMemory }
    {
        if self.fed == 0 {
            return Verdict::Empty;
        }
        match self.point {
            Point::Whole => Verdict::Whole,
            Point::Broken(fault) => Verdict::Broken(fault),
            _ => Verdict::Broken(ItemFault::Short {
                at: self.fed as usize,
            }),
        }
    }

    fn feed_all(&mut self, piece: &[u8])
        requires { self.old.fed + length piece.now ≤ 7995148 }
        ensures { self.new ≡ fed_with self.old piece.now }
    {
        let mut rest = piece;
        while !rest.is_empty() {
            rest = self.feed_some(rest);
        }
    }

    /// Goes on with the first byte, or with as many as change nothing but how many are to come. What is left follows.
    fn feed_some<'a>(&mut self, piece: &'a [u8]) -> &'a [u8]
        requires some { 0 < length piece.now }
        requires few { self.old.fed + length piece.now ≤ 7995148 }
        ensures fed { fed_with self.new result.now ≡ fed_with self.old piece.now }
        ensures less { length result.now < length piece.now }
        ensures counted { self.new.fed + length result.now ≡ self.old.fed + length piece.now }
    {
        let count = self.idle().min(piece.len());
        if count == 0 {
            return self.feed_one(piece);
        }
        let (_, rest) = piece.split_at(count);
        self.pass(count as u32);
        rest
    }

    /// How many bytes at most change nothing but how many are to come.
    fn idle(&self) -> usize
        ensures { IsIdle result self.now.point }
    {
        match self.point {
            Point::Content { more } => more as usize,
            Point::Broken(_) => usize::MAX,
            _ => 0,
        }
    }

    /// Passes over so many of these bytes.
    fn pass(&mut self, count: u32)
        requires idle { MayPass count self.old.point }
        requires few { self.old.fed + count ≤ 7995148 }
        ensures { self.new ≡ passed count self.old }
    {
        self.fed += count;
        if let Point::Content { more } = self.point {
            self.point = Point::Content { more: more - count };
        }
    }

    /// Takes the first byte.
    fn feed_one<'a>(&mut self, piece: &'a [u8]) -> &'a [u8]
        requires some { 0 < length piece.now }
        requires few { self.old.fed + length piece.now ≤ 7995148 }
        ensures fed { fed_with self.new result.now ≡ fed_with self.old piece.now }
        ensures less { length result.now < length piece.now }
        ensures counted { self.new.fed + length result.now ≡ self.old.fed + length piece.now }
    {
        let Some((byte, rest)) = piece.split_first() else {
            unreachable!()
        };
        self.take(*byte);
        rest
    }

    fn take(&mut self, byte: u8)
        requires { self.old.fed < 7995148 }
        ensures { self.new ≡ with_byte self.old byte }
    {
        let place = self.fed;
        self.fed += 1;
        match self.point {
            Point::Format => self.point = point_behind(byte, MAX_DEPTH - self.lists.depth(), place),
            Point::Three { at, kind } => self.point = Point::Two {
                at,
                kind,
                high: byte,
            },
            Point::Two { at, kind, high } => self.point = Point::One {
                at,
                kind,
                high: joined(high, byte),
            },
            Point::One { at, kind, high } => self.begin(
                at,
                kind,
                256 * u32::from(high) + u32::from(byte),
            ),
            Point::Content { more: 0 } => self.end_item(),
            Point::Content { more } => self.point = Point::Content { more: more - 1 },
            Point::Whole => self.point = Point::Broken(ItemFault::Trailing { at: place as usize }),
            Point::Broken(_) => {}
        }
    }

    /// Begins the content behind a head.
    fn begin(&mut self, at: u32, kind: Kind, size: u32)
        requires shallow { is_list kind ≡ true → length self.old.lists < 64 }
        ensures { self.new ≡ behind_head self.old.fed self.old.lists at kind size }
    {
        self.point = Point::Format;
        if size as usize % kind.unit() != 0 {
            self.point = Point::Broken(ItemFault::Uneven { at: at as usize });
        } else if kind.is_list() {
            self.lists.push(size);
            self.end_item();
        } else if size == 0 {
            self.end_item();
        } else {
            self.point = Point::Content { more: size - 1 };
        }
    }

    /// Goes on behind an item.
    fn end_item(&mut self)
        ensures { self.new ≡ behind_item self.old.fed self.old.lists }
    {
        self.point = if self.lists.end_item() {
            Point::Format
        } else {
            Point::Whole
        };
    }
}

/// Where reading stands behind a format byte at a place.
fn point_behind(format: u8, depth: usize, at: u32) -> Point
    ensures reads { result ≡ behind_format at (format_at at depth format) }
    ensures deep { heads_list result ≡ true → 0 < depth }
    ensures memory { is_memory result ≡ false }
{
    match format_of(format, depth, at as usize) {
        Ok((kind, 1)) => Point::One { at, kind, high: 0 },
        Ok((kind, 2)) => Point::Two { at, kind, high: 0 },
        Ok((kind, _)) => Point::Three { at, kind },
        Err(fault) => Point::Broken(fault),
    }
}

/// The number of two bytes.
fn joined(high: u8, low: u8) -> u16
    ensures { result ≡ 256 * high + low }
{
    256 * u16::from(high) + u16::from(low)
}

//! The numbers of a side, of which each is drawn once.

ghost use Rattle.std.specs.Prelude.{◌≡◌, ◌+◌, ◌-◌, ◌^◌, ◌≤◌};
ghost use Rattle.transact.specs.Numbers.{IsNumbers, NumbersView, after_draw, next_number, numbers_from, with_more};

use std::marker::Model;

/// The numbers that a side's primaries get as system bytes: one after another, each once.
#[derive(Debug, Drop)]
pub struct Numbers {
    next: u64,
    end: u64,
}

impl Model for Numbers {
    ghost use Rattle.transact.specs.Numbers.{IsNumbers, NumbersView};

    ghost Value = { NumbersView };

    ghost view = { λ inside. record { next = inside.next; end = inside.end } };

    ghost invariant = { λ inside. IsNumbers (record { next = inside.next; end = inside.end }) };
}

impl Numbers {
    /// This many numbers, from the first on. The last is of four bytes.
    pub fn new(first: u32, count: u64) -> Numbers
        requires { first + count ≤ 2 ^ 32 }
        ensures { result ≡ numbers_from first count }
    {
        let next = u64::from(first);
        Numbers {
            next,
            end: next + count,
        }
    }

    /// The next number. `None` exactly where all are drawn, and then nothing changes.
    pub fn draw(&mut self) -> Option<u32>
        ensures number { result ≡ next_number self.old }
        ensures rest { self.new ≡ after_draw self.old }
    {
        if self.next == self.end {
            return None;
        }
        let number = self.next as u32;
        self.next += 1;
        Some(number)
    }

    /// Adds this many numbers behind those that are left, as far as there are numbers of four bytes.
    pub fn more(&mut self, count: u32)
        ensures { self.new ≡ with_more count self.old }
    {
        self.end = (self.end + u64::from(count)).min(0x1_0000_0000);
    }

    /// The number that is drawn next, where one is left.
    pub fn next(&self) -> u64
        ensures { result ≡ self.now.next }
    {
        self.next
    }

    /// How many numbers are left.
    pub fn left(&self) -> u64
        ensures left { result ≡ self.now.end - self.now.next }
        ensures is_numbers { IsNumbers self.now }
    {
        self.end - self.next
    }
}

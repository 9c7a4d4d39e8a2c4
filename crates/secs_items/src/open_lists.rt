//! The lists in which an item stands.

ghost use Rattle.std.specs.Prelude.{◌≡◌, ◌<◌, ◌≤◌, [], ◌∷◌, length};
ghost use Rattle.secs_items.specs.Checking.{is_open, open_behind};

use crate::item::MAX_DEPTH;
use std::marker::Model;

/// How many items each list still wants behind the one at hand.
#[derive(Clone, Copy, Debug)]
pub(crate) struct OpenLists {
    left: [u32; MAX_DEPTH],
    depth: usize,
}

// The innermost list comes first. Behind those that are open all are 0.
impl Model for OpenLists {
    ghost use Rattle.std.specs.Prelude.{◌≡◌, ◌-◌, ◌≤◌, ◌++◌, ℕ, List, length, take, drop, reverse};
    ghost use Rattle.std.proofs.Math.ListN.{replicate};
    ghost use Rattle.secs_items.specs.OpenLists.{same_left, same_depth};

    ghost Value = { List ℕ };

    ghost view = { λ l. reverse (take l.depth l.left) };

    ghost invariant = { λ l.
        (l.depth ≤ 64) × (length l.left ≡ 64) × (drop l.depth l.left ≡ replicate (64 - l.depth) 0) };

    ghost inverse = { λ lists. record {
      left = reverse lists ++ replicate (64 - length lists) 0;
      depth = length lists;
    } };

    ghost inverse_ok = { λ l h i. record {
      left = same_left l.left l.depth h.0 h.1 h.2 i;
      depth = same_depth l.left l.depth h.0 h.1 i;
    } };
}

impl OpenLists {
    /// None is open.
    pub(crate) fn none() -> OpenLists
        ensures { result ≡ [] }
    {
        OpenLists {
            left: [0; MAX_DEPTH],
            depth: 0,
        }
    }

    /// How many are open.
    pub(crate) fn depth(&self) -> usize
        ensures counted { result ≡ length self.now }
        ensures few { result ≤ 64 }
    {
        self.depth
    }

    /// A list of so many items begins.
    pub(crate) fn push(&mut self, count: u32)
        requires { length self.old < 64 }
        ensures { self.new ≡ count ∷ self.old }
    {
        self.left[self.depth] = count;
        self.depth += 1;
    }

    /// An item has ended. Says whether one more is to come.
    pub(crate) fn end_item(&mut self) -> bool
        ensures lists { self.new ≡ open_behind self.old }
        ensures open { result ≡ is_open self.new }
    {
        while self.depth > 0 {
            let top = self.depth - 1;
            if self.left[top] > 0 {
                self.left[top] -= 1;
                return true;
            }
            self.depth = top;
        }
        false
    }
}

//! One alarm as it stands, and the item that shows it in S5F1, S5F6 and S5F8.

ghost use Rattle.std.specs.Prelude.{◌≡◌, ℕ, length, IfOk, None, Some};
ghost use Rattle.secs_items.specs.Measures.{capped};
ghost use Rattle.secs_items.specs.Spelling.{shortest_spelling};
ghost use Rattle.gem_alarms.specs.Alarms.{alarm_item, alcd_of, triple};

use gl_base::{NoMemory, Row};
use secs_items::{Item, list_len, text_len};
use std::alloc::Global;

// The bit of ALCD that says whether the alarm is set.
const SET: u8 = 0x80;

/// An alarm as it stands.
#[derive(Debug, Drop)]
pub(crate) struct Alarm {
    pub(crate) category: u8,
    pub(crate) text: Row<u8>,
    pub(crate) is_enabled: bool,
    pub(crate) is_set: bool,
}

impl Alarm {
    fn alcd(&self) -> u8
        ensures { result ≡ alcd_of self.now }
    {
        if self.is_set {
            self.category | SET
        } else {
            self.category
        }
    }

    /// How many bytes its item has when it is encoded, or `usize::MAX` where it has more, whichever its ALID.
    pub(crate) fn item_len(&self) -> usize
        ensures { (alid : ℕ) → result ≡ capped (length (shortest_spelling (alarm_item alid (Some self.now)))) }
    {
        list_len(3, text_len(self.text.len()).saturating_add(9))
    }

    pub(crate) fn item(&self, alloc: Global, alid: u32) -> Result<Item, NoMemory>
        ensures { IfOk result (λ body. body ≡ alarm_item alid (Some self.now)) }
    {
        triple(alloc, &[self.alcd()], alid, self.text.as_slice())
    }
}

/// How many bytes the item of an alarm has that isn't there.
pub(crate) const UNKNOWN_LEN: usize = 12;

/// What stands for an alarm that isn't there.
pub(crate) fn unknown_item(alloc: Global, alid: u32) -> Result<Item, NoMemory>
    ensures { IfOk result (λ body. body ≡ alarm_item alid None) }
{
    triple(alloc, &[], alid, &[])
}

fn triple(alloc: Global, alcd: &[u8], alid: u32, altx: &[u8]) -> Result<Item, NoMemory>
    ensures { IfOk result (λ body. body ≡ triple alcd.now alid altx.now) }
{
    let mut items = Row::new(alloc);
    items.push(Item::B(Row::of(alloc, alcd)?))?;
    items.push(Item::number(alloc, alid)?)?;
    items.push(Item::text(alloc, altx)?)?;
    Ok(Item::L(items))
}

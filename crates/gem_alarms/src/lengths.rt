//! How long the lists of alarms are, without building them.

ghost use Rattle.std.specs.Prelude.{◌≡◌, length, map};
ghost use Rattle.std.specs.List.{flat_map};
ghost use Rattle.secs_items.specs.Measures.{capped};
ghost use Rattle.secs_items.specs.Spelling.{shortest_spelling};
ghost use Rattle.gem_alarms.specs.Alarms.{body_of, enabled_list_of, entry_item, list_of};

use crate::alarm::UNKNOWN_LEN;
use crate::alarms::Alarms;
use secs_items::list_len;

impl Alarms {
    /// How many bytes the body of [`Alarms::list`] has, or `usize::MAX` where it has more. It takes no memory.
    pub fn list_len(&self, ids: &[u32]) -> usize
        ensures { result ≡ capped (length (shortest_spelling (list_of self.now ids.now))) }
    {
        if ids.is_empty() {
            list_len(self.alarms.len(), self.entries_len())
        } else {
            list_len(ids.len(), self.bodies_len(ids))
        }
    }

    /// How many bytes the body of [`Alarms::enabled_list`] has, or `usize::MAX` where it has more. It takes no memory.
    pub fn enabled_list_len(&self) -> usize
        ensures { result ≡ capped (length (shortest_spelling (enabled_list_of self.now))) }
    {
        let mut count = 0;
        let mut len: usize = 0;
        for (_, alarm) in self.alarms.iter() {
            if alarm.is_enabled {
                count += 1;
                len = len.saturating_add(alarm.item_len());
            }
        }
        list_len(count, len)
    }

    fn bodies_len(&self, ids: &[u32]) -> usize
        ensures { result ≡ capped (length (flat_map shortest_spelling (map (body_of self.now) ids.now))) }
    {
        let mut len: usize = 0;
        for alid in ids {
            len = len.saturating_add(self.body_len(*alid));
        }
        len
    }

    fn body_len(&self, alid: u32) -> usize
        ensures { result ≡ capped (length (shortest_spelling (body_of self.now alid))) }
    {
        match self.alarms.get(&alid) {
            Some(alarm) => alarm.item_len(),
            None => UNKNOWN_LEN,
        }
    }

    fn entries_len(&self) -> usize
        ensures { result ≡ capped (length (flat_map shortest_spelling (map entry_item self.now))) }
    {
        let mut len: usize = 0;
        for (_, alarm) in self.alarms.iter() {
            len = len.saturating_add(alarm.item_len());
        }
        len
    }
}

//! The lists of variables and constants that the host asks for, and how long they are, without building them.

ghost use Rattle.std.specs.Prelude.{◌≡◌, ◌<◌, get_or, length, IfOk};
ghost use Rattle.secs_items.specs.declared.item.Item.TheVariants as item;
ghost use Rattle.secs_items.specs.Measures.{capped};
ghost use Rattle.secs_items.specs.Spelling.{shortest_spelling};
ghost use Rattle.gem_vars.specs.Listing.{constant_item, constant_name_item, constant_names_of, constant_values_of, ids_of, item_of, items_of, name_item, status_names_of, status_values_of, value_item};
ghost use Rattle.gem_vars.specs.Tables.{ecids_of, vids_of};

use crate::constant::{UNKNOWN_CONSTANT_LEN, unknown_constant};
use crate::rows::{EMPTY_LEN, NUMBER_LEN};
use crate::variable::{UNKNOWN_VARIABLE_LEN, unknown_variable};
use crate::vars::Vars;
use gl_base::{NoMemory, Row};
use secs_items::{Item, list_len};
use std::alloc::Global;

/// What the host asks for of each identifier.
#[derive(Clone, Copy, Debug)]
pub(crate) enum Listing {
    StatusValues,
    StatusNames,
    ConstantValues,
    ConstantNames,
}

impl Vars {
    /// The body of S1F4: the values of these variables in their order, or where there is none, of all in the plan's
    /// order. For an unknown VID stands an empty list.
    pub fn status_values(&self, alloc: Global, ids: &[u32]) -> Result<Item, NoMemory>
        ensures { IfOk result (λ body. body ≡ status_values_of self.now ids.now) }
    {
        self.list(alloc, Listing::StatusValues, ids)
    }

    /// The body of S1F12: the VIDs, names and units of these variables, or of all. For an unknown VID both texts are
    /// empty.
    pub fn status_names(&self, alloc: Global, ids: &[u32]) -> Result<Item, NoMemory>
        ensures { IfOk result (λ body. body ≡ status_names_of self.now ids.now) }
    {
        self.list(alloc, Listing::StatusNames, ids)
    }

    /// The body of S2F14: the values of these constants in their order, or where there is none, of all, the built-in
    /// ones first. For an unknown ECID stands an empty list.
    pub fn constant_values(&self, alloc: Global, ids: &[u32]) -> Result<Item, NoMemory>
        ensures { IfOk result (λ body. body ≡ constant_values_of self.now ids.now) }
    {
        self.list(alloc, Listing::ConstantValues, ids)
    }

    /// The body of S2F30: the ECIDs, names, minima, maxima, defaults and units of these constants, or of all. For an
    /// unknown ECID all but it are empty texts.
    pub fn constant_names(&self, alloc: Global, ids: &[u32]) -> Result<Item, NoMemory>
        ensures { IfOk result (λ body. body ≡ constant_names_of self.now ids.now) }
    {
        self.list(alloc, Listing::ConstantNames, ids)
    }

    /// How many bytes the body of [`Vars::status_values`] has, or `usize::MAX` where it has more. It takes no memory.
    pub fn status_values_len(&self, ids: &[u32]) -> usize
        ensures { result ≡ capped (length (shortest_spelling (status_values_of self.now ids.now))) }
    {
        self.list_len(Listing::StatusValues, ids)
    }

    /// How many bytes the body of [`Vars::status_names`] has, or `usize::MAX` where it has more. It takes no memory.
    pub fn status_names_len(&self, ids: &[u32]) -> usize
        ensures { result ≡ capped (length (shortest_spelling (status_names_of self.now ids.now))) }
    {
        self.list_len(Listing::StatusNames, ids)
    }

    /// How many bytes the body of [`Vars::constant_values`] has, or `usize::MAX` where it has more. It takes no memory.
    pub fn constant_values_len(&self, ids: &[u32]) -> usize
        ensures { result ≡ capped (length (shortest_spelling (constant_values_of self.now ids.now))) }
    {
        self.list_len(Listing::ConstantValues, ids)
    }

    /// How many bytes the body of [`Vars::constant_names`] has, or `usize::MAX` where it has more. It takes no memory.
    pub fn constant_names_len(&self, ids: &[u32]) -> usize
        ensures { result ≡ capped (length (shortest_spelling (constant_names_of self.now ids.now))) }
    {
        self.list_len(Listing::ConstantNames, ids)
    }

    fn list(&self, alloc: Global, listing: Listing, ids: &[u32]) -> Result<Item, NoMemory>
        ensures { IfOk result (λ body. body ≡ item.L (items_of self.now listing ids.now)) }
    {
        let mut items = Row::new(alloc);
        for place in 0..self.count(listing, ids) {
            let id = self.id_at(listing, ids, place);
            items.push(self.item(alloc, listing, id)?)?;
        }
        Ok(Item::L(items))
    }

    fn list_len(&self, listing: Listing, ids: &[u32]) -> usize
        ensures { result ≡ capped (length (shortest_spelling (item.L (items_of self.now listing ids.now)))) }
    {
        let count = self.count(listing, ids);
        let mut len: usize = 0;
        for place in 0..count {
            len = len.saturating_add(self.item_len(listing, self.id_at(listing, ids, place)));
        }
        list_len(count, len)
    }

    /// How many are asked for.
    fn count(&self, listing: Listing, ids: &[u32]) -> usize
        ensures { result ≡ length (ids_of self.now listing ids.now) }
    {
        if !ids.is_empty() {
            return ids.len();
        }
        match listing {
            Listing::StatusValues | Listing::StatusNames => self.variables.len(),
            Listing::ConstantValues | Listing::ConstantNames => self.constants.len(),
        }
    }

    /// The identifier at a place of those that are asked for.
    fn id_at(&self, listing: Listing, ids: &[u32], place: usize) -> u32
        requires { place < length (ids_of self.now listing ids.now) }
        ensures { result ≡ get_or (ids_of self.now listing ids.now) place 0 }
    {
        if !ids.is_empty() {
            return ids[place];
        }
        match listing {
            Listing::StatusValues | Listing::StatusNames => self.vid_at(place),
            Listing::ConstantValues | Listing::ConstantNames => self.ecid_at(place),
        }
    }

    fn vid_at(&self, place: usize) -> u32
        requires { place < length (vids_of self.now) }
        ensures { result ≡ get_or (vids_of self.now) place 0 }
    {
        *self.variables.get_index(place).unwrap().0
    }

    fn ecid_at(&self, place: usize) -> u32
        requires { place < length (ecids_of self.now) }
        ensures { result ≡ get_or (ecids_of self.now) place 0 }
    {
        *self.constants.get_index(place).unwrap().0
    }

    fn item(&self, alloc: Global, listing: Listing, id: u32) -> Result<Item, NoMemory>
        ensures { IfOk result (λ row. row ≡ item_of self.now listing id) }
    {
        match listing {
            Listing::StatusValues => self.value_item(alloc, id),
            Listing::StatusNames => self.name_item(alloc, id),
            Listing::ConstantValues => self.constant_item(alloc, id),
            Listing::ConstantNames => self.constant_name_item(alloc, id),
        }
    }

    fn value_item(&self, alloc: Global, vid: u32) -> Result<Item, NoMemory>
        ensures { IfOk result (λ row. row ≡ value_item self.now vid) }
    {
        match self.value(vid) {
            Some(value) => value.copy(alloc),
            None => Ok(Item::L(Row::new(alloc))),
        }
    }

    fn name_item(&self, alloc: Global, vid: u32) -> Result<Item, NoMemory>
        ensures { IfOk result (λ row. row ≡ name_item self.now vid) }
    {
        match self.variables.get(&vid) {
            Some(variable) => variable.names(alloc, vid),
            None => unknown_variable(alloc, vid),
        }
    }

    fn constant_item(&self, alloc: Global, ecid: u32) -> Result<Item, NoMemory>
        ensures { IfOk result (λ row. row ≡ constant_item self.now ecid) }
    {
        match self.constant(ecid) {
            Some(value) => Item::number(alloc, value),
            None => Ok(Item::L(Row::new(alloc))),
        }
    }

    fn constant_name_item(&self, alloc: Global, ecid: u32) -> Result<Item, NoMemory>
        ensures { IfOk result (λ row. row ≡ constant_name_item self.now ecid) }
    {
        match self.constants.get(&ecid) {
            Some(constant) => constant.limits(alloc, ecid),
            None => unknown_constant(alloc, ecid),
        }
    }

    fn item_len(&self, listing: Listing, id: u32) -> usize
        ensures { result ≡ capped (length (shortest_spelling (item_of self.now listing id))) }
    {
        match listing {
            Listing::StatusValues => self.value_len(id),
            Listing::StatusNames => self.name_len(id),
            Listing::ConstantValues => self.constant_len(id),
            Listing::ConstantNames => self.constant_name_len(id),
        }
    }

    fn value_len(&self, vid: u32) -> usize
        ensures { result ≡ capped (length (shortest_spelling (value_item self.now vid))) }
    {
        match self.value(vid) {
            Some(value) => value.spelled_len(),
            None => EMPTY_LEN,
        }
    }

    fn name_len(&self, vid: u32) -> usize
        ensures { result ≡ capped (length (shortest_spelling (name_item self.now vid))) }
    {
        match self.variables.get(&vid) {
            Some(variable) => variable.names_len(),
            None => UNKNOWN_VARIABLE_LEN,
        }
    }

    fn constant_len(&self, ecid: u32) -> usize
        ensures { result ≡ capped (length (shortest_spelling (constant_item self.now ecid))) }
    {
        match self.constant(ecid) {
            Some(_) => NUMBER_LEN,
            None => EMPTY_LEN,
        }
    }

    fn constant_name_len(&self, ecid: u32) -> usize
        ensures { result ≡ capped (length (shortest_spelling (constant_name_item self.now ecid))) }
    {
        match self.constants.get(&ecid) {
            Some(constant) => constant.limits_len(),
            None => UNKNOWN_CONSTANT_LEN,
        }
    }
}

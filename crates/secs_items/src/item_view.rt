//! Items in their bytes, with no memory taken.

ghost use Rattle.std.specs.Prelude.{◌≡◌, ◌≢◌, ◌-◌, ◌<◌, ◌≤◌, false, true, ℕ, List, [], length, IfErr, IfOk, IfSome, IsOkAnd, None, OnOk, Some};
ghost use Rattle.std.specs.Option.{option_map};
ghost use Rattle.secs_items.specs.declared.item.Item.{Item, out-Item};
ghost use Rattle.secs_items.specs.declared.item_fault.ItemFault.TheVariants as fault;
ghost use Rattle.secs_items.specs.declared.verdict.Verdict.TheVariants as verdict;
ghost use Rattle.secs_items.specs.Checking.{check_of, verdict_of};
ghost use Rattle.secs_items.specs.Heads.{head_view};
ghost use Rattle.secs_items.specs.Kinds.{is_list};
ghost use Rattle.secs_items.specs.Layers.{count_of, items_of, kind_of};
ghost use Rattle.secs_items.specs.Reading.{Gives, after_behind, after_each, after_item, first_fault, item_at};
ghost use Rattle.secs_items.specs.Spelling.{Spells, SpellsFront};
ghost use Rattle.secs_items.specs.Views.{ChecksOnly, ShowsChild, ShowsFront, child_in, number_of};

use crate::body_check::BodyCheck;
use crate::element::Element;
use crate::head::{Head, head_of};
use crate::item::{Item, MAX_DEPTH};
use crate::item_fault::ItemFault;
use crate::kind::Kind;
use crate::reading::{items_of, leaf};
use gl_base::NoMemory;
use std::alloc::Global;
use std::marker::Model;

/// An item in its bytes, which were checked.
#[derive(Drop)]
pub struct ItemView<'a> {
    kind: Kind,
    count: usize,
    depth: usize,
    content: &'a [u8],
}

impl<'a> Model for ItemView<'a> {
    ghost use Rattle.std.specs.Prelude.{ℕ, List, refl};
    ghost use Rattle.std.specs.Coded.{code_by, coded×, coded_list, coded_ℕ};
    ghost use Rattle.secs_items.specs.declared.item.Item.{Item};
    ghost use Rattle.secs_items.specs.contracts.item.Item as item;
    ghost use Rattle.secs_items.specs.Views.{IsWhole, Viewed, item_in};

    ghost Value = { Viewed };

    ghost coded = { code_by
        (Item × List ℕ)
        (coded× item.the_row.coded (coded_list coded_ℕ))
        (λ v. (v.item, v.content))
        (λ p. record { item = p.0; content = p.1 })
        (λ _. refl) };

    ghost view = { λ v. record { item = item_in v.kind v.count v.depth v.content.now; content = v.content.now } };

    ghost invariant = { λ v. IsWhole v.kind v.count v.depth v.content.now };
}

/// The view of the item that the bytes spell. It takes no memory, and refuses what `decode` refuses.
pub fn check(bytes: &[u8]) -> Result<ItemView<'_>, ItemFault>
    // What is accepted is spelled so.
    ensures found { IfOk result (λ view. Spells view.item bytes.now) }
    // The view shows all of the bytes.
    ensures shown { IfOk result (λ view. ShowsFront bytes.now view []) }
    // What is spelled so is accepted.
    ensures only { (item : Item) → Spells item bytes.now → ChecksOnly item result }
    // A refusal names the first fault.
    ensures fault { IfErr result (λ e. first_fault bytes.now ≡ Some e) }
    // What has a fault isn't accepted.
    ensures none { OnOk result (first_fault bytes.now ≡ None) }
    // It never says that memory ran out.
    ensures memory { IfErr result (λ e. e ≢ fault.NoMemory) }
{
    check_all(bytes)
}

/// The view of the item at the front of the bytes, and the bytes after it. Those aren't looked at.
pub fn front(bytes: &[u8]) -> Result<(ItemView<'_>, &[u8]), ItemFault>
    // What is found is spelled there.
    ensures found { IfOk result (λ x. SpellsFront x.0.item bytes.now x.1.now) }
    // The view shows all of the bytes before the rest.
    ensures shown { IfOk result (λ x. ShowsFront bytes.now x.0 x.1.now) }
    // What is spelled there is found.
    ensures only { (item : Item) (rest : List ℕ) → SpellsFront item bytes.now rest
        → IsOkAnd result (λ x. (x.0.item ≡ item) × (x.1.now ≡ rest)) }
    // A refusal names the first fault.
    ensures fault { IfErr result (λ e. first_fault bytes.now ≡ Some e) }
    // It never says that memory ran out.
    ensures memory { IfErr result (λ e. e ≢ fault.NoMemory) }
{
    view_of(bytes, MAX_DEPTH, bytes.len())
}

/// The view of the one item that stands in all of the bytes.
fn check_all(bytes: &[u8]) -> Result<ItemView<'_>, ItemFault>
    ensures found { IfOk result (λ view. Spells view.item bytes.now) }
    ensures shown { IfOk result (λ view. ShowsFront bytes.now view []) }
    ensures fault { IfErr result (λ e. first_fault bytes.now ≡ Some e) }
    ensures none { OnOk result (first_fault bytes.now ≡ None) }
    ensures memory { IfErr result (λ e. e ≢ fault.NoMemory) }
{
    let (view, rest) = view_of(bytes, MAX_DEPTH, bytes.len())?;
    if !rest.is_empty() {
        let at = bytes.len() - rest.len();
        return Err(ItemFault::Trailing { at });
    }
    Ok(view)
}

/// The view of bytes that are known to spell an item, by the check that went with them. It is the one that `check`
/// gives, and no byte behind the head is looked at.
pub fn view<'a>(bytes: &'a [u8], check: &BodyCheck) -> ItemView<'a>
    requires stands { check.now ≡ check_of bytes.now }
    requires whole { verdict_of bytes.now ≡ verdict.Whole }
    ensures found { Spells result.item bytes.now }
    ensures shown { ShowsFront bytes.now result [] }
{
    let Ok(head) = head_of(bytes, MAX_DEPTH, bytes.len()) else {
        unreachable!()
    };
    ItemView {
        kind: head.kind,
        count: head.size / head.kind.unit(),
        depth: MAX_DEPTH - 1,
        content: head.rest,
    }
}

impl<'a> ItemView<'a> {
    pub fn kind(&self) -> Kind
        ensures { result ≡ kind_of (out-Item self.now.item) }
    {
        self.kind
    }

    /// How many items a list has, how many elements another item.
    pub fn len(&self) -> usize
        ensures { result ≡ count_of (out-Item self.now.item) }
    {
        self.count
    }

    /// The bytes after the head.
    pub fn bytes(&self) -> &'a [u8]
        ensures { result.now ≡ self.now.content }
    {
        self.content
    }

    /// The item at a place of a list: `None` where this is no list or has no such place.
    pub fn child(&self, place: usize) -> Option<ItemView<'a>>
        ensures item { child_in self.now place ≡ option_map (λ view. view.item) result }
        ensures shown { IfSome result (λ view. ShowsChild self.now place view) }
    {
        if !self.kind.is_list() || place >= self.count {
            return None;
        }
        Some(self.child_at(self.content, place))
    }

    /// The item that it shows.
    pub fn item(&self, alloc: Global) -> Result<Item, NoMemory>
        ensures { IfOk result (λ item. item ≡ self.now.item) }
    {
        self.item_of(alloc, self.content)
    }

    /// The item of this content.
    fn item_of(&self, alloc: Global, content: &[u8]) -> Result<Item, NoMemory>
        requires { content.now ≡ self.now.content }
        ensures { IfOk result (λ item. item ≡ self.now.item) }
    {
        if !self.kind.is_list() {
            return leaf(alloc, self.kind, content);
        }
        match items_of(alloc, content, self.count, self.depth, content.len()) {
            Ok((items, _)) => Ok(Item::L(items)),
            Err(_) => Err(NoMemory),
        }
    }

    /// The item at a place that the list of this content has.
    fn child_at(&self, content: &'a [u8], place: usize) -> ItemView<'a>
        requires same { content.now ≡ self.now.content }
        requires within { place < length (items_of (out-Item self.now.item)) }
        ensures item { child_in self.now place ≡ Some result.item }
        ensures shown { ShowsChild self.now place result }
    {
        let Ok(rest) = skip_items(content, place, self.depth, content.len()) else {
            unreachable!()
        };
        let Ok((view, _)) = view_of(rest, self.depth, content.len()) else {
            unreachable!()
        };
        view
    }

    /// The number that is the one element of U1, U2, U4 or U8.
    pub fn number(&self) -> Option<u64>
        ensures { result ≡ number_of (out-Item self.now.item) }
    {
        if self.count != 1 {
            return None;
        }
        match self.kind {
            Kind::U1 => Some(u64::from(self.content[0])),
            Kind::U2 => Some(u64::from(u16::read(self.content))),
            Kind::U4 => Some(u64::from(u32::read(self.content))),
            Kind::U8 => Some(u64::read(self.content)),
            _ => None,
        }
    }
}

/// The view of the item at the front, in which lists may nest so deep, and the bytes after it. `total` is the input's
/// length.
fn view_of(bytes: &[u8], depth: usize, total: usize) -> Result<(ItemView<'_>, &[u8]), ItemFault>
    requires { length bytes.now ≤ total }
    ensures gives { Gives (λ x. (x.0.item, x.1.now)) result (item_at total depth bytes.now) }
    ensures named { IfErr result (λ e. e ≢ fault.NoMemory) }
    ensures shown { IfOk result (λ x. ShowsFront bytes.now x.0 x.1.now) }
    ensures within { IfOk result (λ x. length x.1.now ≤ length bytes.now) }
{
    let head = head_of(bytes, depth, total)?;
    let rest = skip_content(head, depth, total)?;
    let (content, _) = head.rest.split_at(head.rest.len() - rest.len());
    let view = ItemView {
        kind: head.kind,
        count: head.size / head.kind.unit(),
        depth: depth.saturating_sub(1),
        content,
    };
    Ok((view, rest))
}

/// What is left after the item at the front.
#[cycle(skipping)]
fn skip_item(bytes: &[u8], depth: usize, total: usize) -> Result<&[u8], ItemFault>
    requires { length bytes.now ≤ total }
    ensures gives { Gives (λ rest. rest.now) result (after_item total depth bytes.now) }
    ensures named { IfErr result (λ e. e ≢ fault.NoMemory) }
    ensures within { IfOk result (λ rest. length rest.now ≤ length bytes.now) }
{
    let head = head_of(bytes, depth, total)?;
    skip_content(head, depth, total)
}

/// What is left after the content behind a head.
#[cycle(skipping)]
fn skip_content<'a>(head: Head<'a>, depth: usize, total: usize) -> Result<&'a [u8], ItemFault>
    requires deep { is_list head.kind ≡ true → 0 < depth }
    requires whole { is_list head.kind ≡ false → head.size ≤ length head.rest.now }
    requires within { length head.rest.now ≤ total }
    ensures gives { Gives (λ rest. rest.now) result (after_behind total depth (head_view head.entry)) }
    ensures named { IfErr result (λ e. e ≢ fault.NoMemory) }
    ensures within { IfOk result (λ rest. length rest.now ≤ length head.entry.rest.now) }
{
    if head.kind.is_list() {
        return skip_items(head.rest, head.size, depth - 1, total);
    }
    let (_, rest) = head.rest.split_at(head.size);
    Ok(rest)
}

/// What is left after so many items at the front, one by one.
#[cycle(skipping)]
fn skip_items(bytes: &[u8], count: usize, depth: usize, total: usize) -> Result<&[u8], ItemFault>
    requires { length bytes.now ≤ total }
    ensures gives { Gives (λ rest. rest.now) result (after_each (after_item total depth) count bytes.now) }
    ensures named { IfErr result (λ e. e ≢ fault.NoMemory) }
    ensures within { IfOk result (λ rest. length rest.now ≤ length bytes.now) }
{
    let mut rest = bytes;
    for _ in 0..count {
        rest = skip_item(rest, depth, total)?;
    }
    Ok(rest)
}

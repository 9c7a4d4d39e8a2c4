//! Items in their bytes, one after another.

ghost use Rattle.std.specs.Prelude.{◌≡◌, ◌∷◌, List, IfOk, IfSome, IsSomeAnd};
ghost use Rattle.std.specs.Option.{is_some, option_map};
ghost use Rattle.secs_items.specs.declared.item.Item.{Item, out-Item};
ghost use Rattle.secs_items.specs.Checking.{check_of};
ghost use Rattle.secs_items.specs.Spelling.{Spells, SpellsEach};
ghost use Rattle.secs_items.specs.Views.{number_of};
ghost use Rattle.gem_shapes.specs.Elements.{IsPpid, byte_of, five_items, flag_of, if_ppid, is_empty_list, list_of, numbers_of, one_flag_of, one_of, ppid, text_of, two};
ghost use Rattle.gem_shapes.specs.Parts.{AreSpelled, Begins};
ghost use Rattle.gem_shapes.specs.Requests.{behind_head, behind_item};

use gl_base::NoMemory;
use secs_items::{BodyCheck, Item, ItemView, Kind, Verdict, front, view};
use std::alloc::Global;
use std::marker::Model;

/// The text of an A, in the bytes of its message.
#[derive(Drop)]
pub struct Text<'a> {
    bytes: &'a [u8],
}

impl<'a> Model for Text<'a> {
    ghost use Rattle.std.specs.Prelude.{ℕ, List};

    ghost Value = { List ℕ };

    ghost view = { λ text. text.bytes.now };
}

impl<'a> Text<'a> {
    pub fn bytes(&self) -> &'a [u8]
        ensures { result.now ≡ self.now }
    {
        self.bytes
    }
}

/// The name of a recipe, PPID, in the bytes of its message: 1 to 80 bytes.
#[derive(Drop)]
pub struct RecipeName<'a> {
    bytes: &'a [u8],
}

impl<'a> Model for RecipeName<'a> {
    ghost use Rattle.std.specs.Prelude.{ℕ, List};
    ghost use Rattle.gem_shapes.specs.Elements.{IsPpid};

    ghost Value = { List ℕ };

    ghost view = { λ name. name.bytes.now };

    ghost invariant = { λ name. IsPpid name.bytes.now };
}

impl<'a> RecipeName<'a> {
    pub fn bytes(&self) -> &'a [u8]
        ensures bytes { result.now ≡ self.now }
        ensures is { IsPpid result.now }
    {
        self.bytes
    }
}

/// An item as the bytes that spell it in its message.
#[derive(Drop)]
pub struct Spelled<'a> {
    pub(crate) bytes: &'a [u8],
}

impl<'a> Model for Spelled<'a> {
    ghost use Rattle.std.specs.Prelude.{ℕ, List};

    ghost Value = { List ℕ };

    ghost view = { λ spelled. spelled.bytes.now };
}

impl<'a> Spelled<'a> {
    pub fn bytes(&self) -> &'a [u8]
        ensures { result.now ≡ self.now }
    {
        self.bytes
    }
}

/// The second part of S2F41, in the bytes of its message: parameters, each with its name and a value.
#[derive(Drop)]
pub struct Params<'a> {
    part: Part<'a>,
}

impl<'a> Model for Params<'a> {
    ghost use Rattle.secs_items.specs.contracts.item.Item as item;
    ghost use Rattle.secs_items.specs.declared.item.Item.{Item};

    ghost Value = { Item };

    ghost coded = { item.the_row.coded };

    ghost view = { λ params. params.part.item };
}

impl<'a> Params<'a> {
    pub fn view(&self) -> &ItemView<'a>
        ensures { result.now.item ≡ self.now }
    {
        &self.part.view
    }
}

/// An item in its bytes, of which its content is known to be its own.
#[derive(Drop)]
pub(crate) struct Part<'a> {
    view: ItemView<'a>,
}

impl<'a> Model for Part<'a> {
    ghost use Rattle.std.specs.Prelude.{ℕ, List, refl};
    ghost use Rattle.std.specs.Coded.{code_by, coded×, coded_list, coded_ℕ};
    ghost use Rattle.secs_items.specs.contracts.item.Item as item;
    ghost use Rattle.secs_items.specs.declared.item.Item.{Item};
    ghost use Rattle.secs_items.specs.Views.{Viewed};
    ghost use Rattle.gem_shapes.specs.Parts.{IsFilled};

    ghost Value = { Viewed };

    ghost coded = { code_by
        (Item × List ℕ)
        (coded× item.the_row.coded (coded_list coded_ℕ))
        (λ v. (v.item, v.content))
        (λ p. record { item = p.0; content = p.1 })
        (λ _. refl) };

    ghost view = { λ part. part.view };

    ghost invariant = { λ part. IsFilled part.view };
}

/// The part that all of the bytes are; `None` exactly where they spell no item. They were checked as they came, so none
/// behind the head is looked at.
pub(crate) fn checked_part<'a>(bytes: &'a [u8], check: &BodyCheck) -> Option<Part<'a>>
    requires { check.now ≡ check_of bytes.now }
    ensures found { IfSome result (λ part. Spells part.item bytes.now) }
    ensures content { IfSome result (λ part. part.content ≡ behind_head bytes.now) }
    ensures only { (item : Item) → Spells item bytes.now → IsSomeAnd result (λ part. part.item ≡ item) }
{
    match check.verdict() {
        Verdict::Whole => Some(Part {
            view: view(bytes, check),
        }),
        _ => None,
    }
}

/// The part at the front of some that stand one after another, and the bytes after it.
pub(crate) fn front_of(bytes: &[u8]) -> (Part<'_>, &[u8])
    requires { Begins bytes.now }
    ensures items { (item : Item) (items : List Item) → SpellsEach Spells (item ∷ items) bytes.now
        → (result.0.item ≡ item) × SpellsEach Spells items result.1.now }
    ensures rest { result.1.now ≡ behind_item bytes.now }
{
    let Ok((view, rest)) = front(bytes) else {
        unreachable!()
    };
    (Part { view }, rest)
}

/// The two items of L,2.
pub(crate) fn two_of<'a>(part: &Part<'a>) -> Option<(Part<'a>, Part<'a>)>
    ensures { option_map (λ parts. (parts.0.item, parts.1.item)) result ≡ two part.now.item }
{
    let (count, bytes) = part.list()?;
    if count != 2 {
        return None;
    }
    let (first, rest) = front_of(bytes);
    let (second, _) = front_of(rest);
    Some((first, second))
}

/// The first item of L,2, and the bytes of the second one.
pub(crate) fn first_and_bytes<'a>(part: &Part<'a>) -> Option<(Part<'a>, &'a [u8])>
    ensures first { option_map (λ parts. parts.0.item) result ≡ option_map (λ items. items.0) (two part.now.item) }
    ensures bytes { IfSome result (λ parts. parts.1.now ≡ behind_item part.now.content) }
{
    let (count, bytes) = part.list()?;
    if count != 2 {
        return None;
    }
    Some(front_of(bytes))
}

/// The five items of L,5.
pub(crate) fn five_of<'a>(
    part: &Part<'a>,
) -> Option<(Part<'a>, Part<'a>, Part<'a>, Part<'a>, Part<'a>)>
    ensures { option_map (λ parts. (parts.0.item, parts.1.item, parts.2.item, parts.3.item, parts.4.item)) result
        ≡ five_items part.now.item }
{
    let (count, bytes) = part.list()?;
    if count != 5 {
        return None;
    }
    let (first, rest) = front_of(bytes);
    let (second, rest) = front_of(rest);
    let (third, rest) = front_of(rest);
    let (fourth, rest) = front_of(rest);
    let (fifth, _) = front_of(rest);
    Some((first, second, third, fourth, fifth))
}

/// The one byte.
fn one_of(bytes: &[u8]) -> Option<u8>
    ensures { result ≡ one_of bytes.now }
{
    match bytes {
        [byte] => Some(*byte),
        _ => None,
    }
}

/// Whether the one byte isn't 00.
fn one_flag_of(bytes: &[u8]) -> Option<bool>
    ensures { result ≡ one_flag_of bytes.now }
{
    match bytes {
        [byte] => Some(*byte != 0),
        _ => None,
    }
}

/// The name of a recipe that the bytes are.
fn recipe_name(bytes: &[u8]) -> Option<RecipeName<'_>>
    ensures { result ≡ if_ppid bytes.now }
{
    if bytes.is_empty() || bytes.len() > 80 {
        return None;
    }
    Some(RecipeName { bytes })
}

impl<'a> Part<'a> {
    pub(crate) fn number(&self) -> Option<u64>
        ensures { result ≡ number_of (out-Item self.now.item) }
    {
        self.view.number()
    }

    /// Whether it is U1, U2, U4 or U8.
    pub(crate) fn has_numbers(&self) -> bool
        ensures { result ≡ is_some (numbers_of (out-Item self.now.item)) }
    {
        matches!(self.view.kind(), Kind::U1 | Kind::U2 | Kind::U4 | Kind::U8)
    }

    /// Whether it is a list without items.
    pub(crate) fn is_empty_list(&self) -> bool
        ensures { result ≡ is_empty_list (out-Item self.now.item) }
    {
        match self.view.kind() {
            Kind::L => self.view.len() == 0,
            _ => false,
        }
    }

    /// The item that it is.
    pub(crate) fn item(&self, alloc: Global) -> Result<Item, NoMemory>
        ensures { IfOk result (λ item. item ≡ self.now.item) }
    {
        self.view.item(alloc)
    }

    /// How many items a list has, and the bytes in which they stand one after another.
    pub(crate) fn list(&self) -> Option<(usize, &'a [u8])>
        ensures spelled { AreSpelled (list_of (out-Item self.now.item)) (option_map (λ x. (x.0, x.1.now)) result) }
        ensures content { IfSome result (λ x. x.1.now ≡ self.now.content) }
    {
        match self.view.kind() {
            Kind::L => Some((self.view.len(), self.view.bytes())),
            _ => None,
        }
    }

    pub(crate) fn text(&self) -> Option<Text<'a>>
        ensures { result ≡ text_of (out-Item self.now.item) }
    {
        match self.view.kind() {
            Kind::A => Some(Text {
                bytes: self.view.bytes(),
            }),
            _ => None,
        }
    }

    /// The name of a recipe.
    pub(crate) fn recipe_name(&self) -> Option<RecipeName<'a>>
        ensures { result ≡ ppid self.now.item }
    {
        recipe_name(self.text()?.bytes())
    }

    /// The one element of B.
    pub(crate) fn byte(&self) -> Option<u8>
        ensures { result ≡ byte_of (out-Item self.now.item) }
    {
        match self.view.kind() {
            Kind::B => one_of(self.view.bytes()),
            _ => None,
        }
    }

    /// The one element of BOOLEAN.
    pub(crate) fn flag(&self) -> Option<bool>
        ensures { result ≡ flag_of (out-Item self.now.item) }
    {
        match self.view.kind() {
            Kind::Bool => one_flag_of(self.view.bytes()),
            _ => None,
        }
    }

    pub(crate) fn into_params(self) -> Params<'a>
        ensures { result ≡ self.entry.item }
    {
        Params { part: self }
    }
}

//! Forms of items: what an item is read as, and which items are of the form.

ghost use Rattle.std.specs.Prelude.{◌≡◌, ℕ, ◌^◌, Option, map, IfOk};
ghost use Rattle.secs_items.specs.declared.item.Item.{Item};
ghost use Rattle.gem_shapes.specs.Elements.{anything, below, both, all_of, code, each, five, flag, identifier, identifier_or_all, identifiers, one_or_all, ppid, setting, small_number, text};
ghost use Rattle.gem_shapes.specs.Requests.{definition, linking, rule_entry};

use crate::entries::{Definition, Linking, RuleEntry};
use crate::part::{Part, RecipeName, Text, five_of, front_of, two_of};
use gl_base::{NoMemory, Row};
use secs_items::Item;
use std::alloc::Global;
use std::marker::PhantomData;

/// A form that items may have. What is read of one is `None` exactly where the item isn't of the form.
pub(crate) trait Form<'a> {
    type Value: Drop;

    /// What an item of this form is read as.
    ghost value_of: { Item → Option Self.Value };

    fn read(alloc: Global, part: &Part<'a>) -> Result<Option<Self::Value>, NoMemory>
        ensures { IfOk result (λ value. value ≡ value_of part.now.item) };
}

/// L,n of items of one form.
pub(crate) struct Each<F> {
    of: PhantomData<F>,
}

/// L,2 of items of two forms.
pub(crate) struct Both<F, G> {
    of: PhantomData<(F, G)>,
}

/// L,5 of items of five forms.
pub(crate) struct Five<A, B, C, D, E> {
    of: PhantomData<(A, B, C, D, E)>,
}

/// An identifier, as VID and CEID, and DATALENGTH.
pub(crate) struct Identifier;

/// ECV.
pub(crate) struct Setting;

/// A code of one byte, as ALED and TID.
pub(crate) struct Code;

/// RSDC, STRID and FCNID.
pub(crate) struct SmallNumber;

/// The identifiers that are the elements of one item.
pub(crate) struct Identifiers;

/// ALID, or an item of no element for all alarms.
pub(crate) struct IdentifierOrAll;

/// Any item at all.
pub(crate) struct Anything;

/// CEED.
pub(crate) struct Flag;

/// RCMD, CPNAME and texts.
pub(crate) struct Words;

/// PPID.
pub(crate) struct Ppid;

impl<'a, F: Form<'a>> Form<'a> for Each<F> {
    type Value = Row<F::Value>;

    ghost value_of = { each F.value_of };

    fn read(alloc: Global, part: &Part<'a>) -> Result<Option<Row<F::Value>>, NoMemory> {
        let Some((count, bytes)) = part.list() else {
            return Ok(None);
        };
        let mut row = Row::new(alloc);
        let mut rest = bytes;
        for _ in 0..count {
            let (front, behind) = front_of(rest);
            let Some(value) = F::read(alloc, &front)? else {
                return Ok(None);
            };
            row.push(value)?;
            rest = behind;
        }
        Ok(Some(row))
    }
}

impl<'a, F: Form<'a>, G: Form<'a>> Form<'a> for Both<F, G> {
    type Value = (F::Value, G::Value);

    ghost value_of = { both F.value_of G.value_of };

    fn read(alloc: Global, part: &Part<'a>) -> Result<Option<(F::Value, G::Value)>, NoMemory> {
        let Some((first, second)) = two_of(part) else {
            return Ok(None);
        };
        let Some(first) = F::read(alloc, &first)? else {
            return Ok(None);
        };
        let Some(second) = G::read(alloc, &second)? else {
            return Ok(None);
        };
        Ok(Some((first, second)))
    }
}

impl<'a, A: Form<'a>, B: Form<'a>, C: Form<'a>, D: Form<'a>, E: Form<'a>> Form<'a>
    for Five<A, B, C, D, E> {
    type Value = (A::Value, B::Value, C::Value, D::Value, E::Value);

    ghost value_of = { five A.value_of B.value_of C.value_of D.value_of E.value_of };

    fn read(alloc: Global, part: &Part<'a>) -> Result<Option<Self::Value>, NoMemory> {
        let Some((first, second, third, fourth, fifth)) = five_of(part) else {
            return Ok(None);
        };
        let Some(first) = A::read(alloc, &first)? else {
            return Ok(None);
        };
        let Some(second) = B::read(alloc, &second)? else {
            return Ok(None);
        };
        let Some(third) = C::read(alloc, &third)? else {
            return Ok(None);
        };
        let Some(fourth) = D::read(alloc, &fourth)? else {
            return Ok(None);
        };
        let Some(fifth) = E::read(alloc, &fifth)? else {
            return Ok(None);
        };
        Ok(Some((first, second, third, fourth, fifth)))
    }
}

impl<'a> Form<'a> for Identifier {
    type Value = u32;

    ghost value_of = { identifier };

    fn read(_alloc: Global, part: &Part<'a>) -> Result<Option<u32>, NoMemory> {
        Ok(identifier_of(part))
    }
}

fn identifier_of(part: &Part<'_>) -> Option<u32>
    ensures { result ≡ identifier part.now.item }
{
    below(part.number()?)
}

impl<'a> Form<'a> for Setting {
    type Value = u32;

    ghost value_of = { setting };

    fn read(_alloc: Global, part: &Part<'a>) -> Result<Option<u32>, NoMemory> {
        if let Some(number) = identifier_of(part) {
            return Ok(Some(number));
        }
        Ok(part.flag().map(u32::from))
    }
}

impl<'a> Form<'a> for Code {
    type Value = u8;

    ghost value_of = { code };

    fn read(_alloc: Global, part: &Part<'a>) -> Result<Option<u8>, NoMemory> {
        Ok(part.byte())
    }
}

impl<'a> Form<'a> for SmallNumber {
    type Value = u8;

    ghost value_of = { small_number };

    fn read(_alloc: Global, part: &Part<'a>) -> Result<Option<u8>, NoMemory> {
        match part.number() {
            Some(number) if number < 0x100 => Ok(Some(number as u8)),
            Some(_) => Ok(None),
            None => Ok(part.byte()),
        }
    }
}

impl<'a> Form<'a> for Flag {
    type Value = bool;

    ghost value_of = { flag };

    fn read(_alloc: Global, part: &Part<'a>) -> Result<Option<bool>, NoMemory> {
        Ok(part.flag())
    }
}

impl<'a> Form<'a> for Words {
    type Value = Text<'a>;

    ghost value_of = { text };

    fn read(_alloc: Global, part: &Part<'a>) -> Result<Option<Text<'a>>, NoMemory> {
        Ok(part.text())
    }
}

impl<'a> Form<'a> for Ppid {
    type Value = RecipeName<'a>;

    ghost value_of = { ppid };

    fn read(_alloc: Global, part: &Part<'a>) -> Result<Option<RecipeName<'a>>, NoMemory> {
        Ok(part.recipe_name())
    }
}

impl<'a> Form<'a> for Anything {
    type Value = ();

    ghost value_of = { anything };

    fn read(_alloc: Global, _part: &Part<'a>) -> Result<Option<()>, NoMemory> {
        Ok(Some(()))
    }
}

impl<'a> Form<'a> for Identifiers {
    type Value = Row<u32>;

    ghost value_of = { identifiers };

    fn read(alloc: Global, part: &Part<'a>) -> Result<Option<Row<u32>>, NoMemory> {
        if !part.has_numbers() {
            return Ok(None);
        }
        match part.item(alloc)? {
            Item::U1(numbers) => all_of(alloc, numbers.as_slice()),
            Item::U2(numbers) => all_of(alloc, numbers.as_slice()),
            Item::U4(numbers) => all_of(alloc, numbers.as_slice()),
            Item::U8(numbers) => all_of(alloc, numbers.as_slice()),
            _ => Ok(None),
        }
    }
}

/// A number of an item.
trait Number: Copy {
    ghost value: { Self → ℕ };

    fn value(self) -> u64
        ensures { result ≡ value self };
}

impl Number for u8 {
    ghost value = { λ n. n };

    fn value(self) -> u64 {
        u64::from(self)
    }
}

impl Number for u16 {
    ghost value = { λ n. n };

    fn value(self) -> u64 {
        u64::from(self)
    }
}

impl Number for u32 {
    ghost value = { λ n. n };

    fn value(self) -> u64 {
        u64::from(self)
    }
}

impl Number for u64 {
    ghost value = { λ n. n };

    fn value(self) -> u64 {
        self
    }
}

/// The numbers, where four bytes hold each.
fn all_of<N: Number>(alloc: Global, numbers: &[N]) -> Result<Option<Row<u32>>, NoMemory>
    ensures { IfOk result (λ row. row ≡ all_of (map (λ n. below (2 ^ 32) (N.value n)) numbers.now)) }
{
    let mut row = Row::new(alloc);
    for number in numbers {
        let Some(number) = below(number.value()) else {
            return Ok(None);
        };
        row.push(number)?;
    }
    Ok(Some(row))
}

/// The number, where four bytes hold it.
fn below(number: u64) -> Option<u32>
    ensures { result ≡ below (2 ^ 32) number }
{
    if number < 0x1_0000_0000 {
        Some(number as u32)
    } else {
        None
    }
}

impl<'a> Form<'a> for IdentifierOrAll {
    type Value = Option<u32>;

    ghost value_of = { identifier_or_all };

    fn read(alloc: Global, part: &Part<'a>) -> Result<Option<Option<u32>>, NoMemory> {
        let Some(numbers) = Identifiers::read(alloc, part)? else {
            return Ok(None);
        };
        Ok(one_or_all(numbers.as_slice()))
    }
}

fn one_or_all(numbers: &[u32]) -> Option<Option<u32>>
    ensures { result ≡ one_or_all numbers.now }
{
    match numbers {
        [] => Some(None),
        [number] => Some(Some(*number)),
        _ => None,
    }
}

impl<'a> Form<'a> for Definition {
    type Value = Definition;

    ghost value_of = { definition };

    fn read(alloc: Global, part: &Part<'a>) -> Result<Option<Definition>, NoMemory> {
        match Both::<Identifier, Each<Identifier>>::read(alloc, part)? {
            Some((rptid, vids)) => Ok(Some(Definition { rptid, vids })),
            None => Ok(None),
        }
    }
}

impl<'a> Form<'a> for Linking {
    type Value = Linking;

    ghost value_of = { linking };

    fn read(alloc: Global, part: &Part<'a>) -> Result<Option<Linking>, NoMemory> {
        match Both::<Identifier, Each<Identifier>>::read(alloc, part)? {
            Some((ceid, rptids)) => Ok(Some(Linking { ceid, rptids })),
            None => Ok(None),
        }
    }
}

impl<'a> Form<'a> for RuleEntry {
    type Value = RuleEntry;

    ghost value_of = { rule_entry };

    fn read(alloc: Global, part: &Part<'a>) -> Result<Option<RuleEntry>, NoMemory> {
        match Both::<SmallNumber, Each<SmallNumber>>::read(alloc, part)? {
            Some((stream, functions)) => Ok(Some(RuleEntry { stream, functions })),
            None => Ok(None),
        }
    }
}

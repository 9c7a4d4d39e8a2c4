//! What a message asks for, read of its body.

ghost use Rattle.std.specs.Prelude.{◌≡◌, ◌↔◌, Some, IfOk, IsTrue};
ghost use Rattle.secs_items.specs.Checking.{check_of};
ghost use Rattle.gem_shapes.specs.declared.primary.Primary.TheVariants as primary;
ghost use Rattle.gem_shapes.specs.Asked.{request_of};
ghost use Rattle.gem_shapes.specs.Requests.{Asks, AsksFor, FitsShape, IsAskedByItem, IsFound, IsNothing, behind_item, request_in, sent, shape_of};
ghost use Rattle.gem_shapes.specs.Requests.Shape.{Nothing};

use crate::entries::{Definition, Linking, RuleEntry};
use crate::form::{
    Anything, Both, Code, Each, Five, Flag, Form, Identifier, IdentifierOrAll, Identifiers, Ppid,
    Setting, SmallNumber, Words,
};
use crate::part::{Part, Spelled, checked_part, first_and_bytes, two_of};
use crate::primary::Primary;
use crate::request::{RecipesRequest, Request, TablesRequest};
use gl_base::NoMemory;
use secs_items::BodyCheck;
use std::alloc::Global;

/// What the message asks the equipment for; `None` exactly where the equipment takes no such primary, or where the body
/// isn't of its shape. `check` is the check of this body, made as it came.
pub fn read_request<'a>(
    alloc: Global,
    stream: u8,
    function: u8,
    body: &'a [u8],
    check: &BodyCheck,
) -> Result<Option<Request<'a>>, NoMemory>
    requires { check.now ≡ check_of body.now }
    ensures found { IfOk result (λ found. found ≡ request_of stream function body.now) }
    ensures asks { IfOk result (λ found. IsFound (Asks stream function body.now) found) }
{
    match Primary::with(stream, function) {
        Some(primary) => primary.request(alloc, body, check),
        None => Ok(None),
    }
}

/// Whether the body is nothing: no byte, or an empty list.
fn is_nothing(body: &[u8], check: &BodyCheck) -> bool
    requires { check.now ≡ check_of body.now }
    ensures { IsTrue result ↔ IsNothing body.now }
{
    match checked_part(body, check) {
        Some(part) => part.is_empty_list(),
        None => body.is_empty(),
    }
}

/// This, where the body is nothing.
fn asked_by_nothing<'a>(body: &[u8], check: &BodyCheck, asked: Request<'a>) -> Option<Request<'a>>
    requires { check.now ≡ check_of body.now }
    ensures { IsFound (FitsShape (Nothing asked.entry) body.now) result }
{
    if is_nothing(body, check) {
        Some(asked)
    } else {
        None
    }
}

impl Primary {
    /// What a body asks for.
    fn request<'a>(
        self,
        alloc: Global,
        body: &'a [u8],
        check: &BodyCheck,
    ) -> Result<Option<Request<'a>>, NoMemory>
        requires { check.now ≡ check_of body.now }
        ensures { IfOk result (λ found. IsFound (AsksFor (Some self) body.now) found) }
    {
        match self {
            Primary::S1F1 => Ok(asked_by_nothing(
                body,
                check,
                Request::OfTables(TablesRequest::AreYouThere),
            )),
            Primary::S1F13 => Ok(Some(Request::Establish)),
            Primary::S1F15 => Ok(asked_by_nothing(body, check, Request::GoOffline)),
            Primary::S1F17 => Ok(asked_by_nothing(body, check, Request::GoOnline)),
            Primary::S5F7 => Ok(asked_by_nothing(
                body,
                check,
                Request::OfTables(TablesRequest::EnabledAlarms),
            )),
            Primary::S7F3 => Ok(sent(body, check)),
            Primary::S7F19 => Ok(asked_by_nothing(
                body,
                check,
                Request::OfRecipes(RecipesRequest::List),
            )),
            _ => self.request_of_item(alloc, body, check),
        }
    }

    /// What a body asks for that is to be one item.
    fn request_of_item<'a>(
        self,
        alloc: Global,
        body: &'a [u8],
        check: &BodyCheck,
    ) -> Result<Option<Request<'a>>, NoMemory>
        requires { check.now ≡ check_of body.now }
        ensures { IfOk result (λ found. IsFound (IsAskedByItem (request_in (shape_of self)) body.now) found) }
    {
        match checked_part(body, check) {
            Some(part) => self.read(alloc, part),
            None => Ok(None),
        }
    }

    /// What the item asks for.
    fn read<'a>(self, alloc: Global, part: Part<'a>) -> Result<Option<Request<'a>>, NoMemory>
        ensures { IfOk result (λ found. found ≡ request_in (shape_of self) part.entry.item) }
    {
        match self {
            Primary::S1F3 => status_values(alloc, &part),
            Primary::S1F11 => status_names(alloc, &part),
            Primary::S2F13 => constant_values(alloc, &part),
            Primary::S2F15 => set_constants(alloc, &part),
            Primary::S2F23 => trace(alloc, &part),
            Primary::S2F29 => constant_names(alloc, &part),
            Primary::S2F33 => define(alloc, &part),
            Primary::S2F35 => link(alloc, &part),
            Primary::S2F37 => enable_events(alloc, &part),
            Primary::S2F39 => announce(alloc, &part),
            Primary::S2F41 => command(alloc, &part),
            Primary::S2F43 => replace_rule(alloc, &part),
            Primary::S5F3 => enable_alarms(alloc, &part),
            Primary::S5F5 => alarms(alloc, &part),
            Primary::S6F15 => event_report(alloc, &part),
            Primary::S6F19 => report(alloc, &part),
            Primary::S6F23 => spool(alloc, &part),
            Primary::S7F1 => inquire(alloc, &part),
            Primary::S7F5 => Ok(ask(&part)),
            Primary::S7F17 => delete(alloc, &part),
            Primary::S10F3 => display(alloc, &part),
            Primary::S10F5 => display_lines(alloc, &part),
            _ => Ok(None),
        }
    }
}

fn status_values<'a>(alloc: Global, part: &Part<'a>) -> Result<Option<Request<'a>>, NoMemory>
    ensures { IfOk result (λ found. found ≡ request_in (shape_of primary.S1F3) part.now.item) }
{
    match Each::<Identifier>::read(alloc, part)? {
        Some(ids) => Ok(Some(Request::OfTables(TablesRequest::StatusValues(ids)))),
        None => Ok(None),
    }
}

fn status_names<'a>(alloc: Global, part: &Part<'a>) -> Result<Option<Request<'a>>, NoMemory>
    ensures { IfOk result (λ found. found ≡ request_in (shape_of primary.S1F11) part.now.item) }
{
    match Each::<Identifier>::read(alloc, part)? {
        Some(ids) => Ok(Some(Request::OfTables(TablesRequest::StatusNames(ids)))),
        None => Ok(None),
    }
}

fn constant_values<'a>(alloc: Global, part: &Part<'a>) -> Result<Option<Request<'a>>, NoMemory>
    ensures { IfOk result (λ found. found ≡ request_in (shape_of primary.S2F13) part.now.item) }
{
    match Each::<Identifier>::read(alloc, part)? {
        Some(ids) => Ok(Some(Request::OfTables(TablesRequest::ConstantValues(ids)))),
        None => Ok(None),
    }
}

fn set_constants<'a>(alloc: Global, part: &Part<'a>) -> Result<Option<Request<'a>>, NoMemory>
    ensures { IfOk result (λ found. found ≡ request_in (shape_of primary.S2F15) part.now.item) }
{
    match Each::<Both<Identifier, Setting>>::read(alloc, part)? {
        Some(list) => Ok(Some(Request::OfTables(TablesRequest::SetConstants(list)))),
        None => Ok(None),
    }
}

fn trace<'a>(alloc: Global, part: &Part<'a>) -> Result<Option<Request<'a>>, NoMemory>
    ensures { IfOk result (λ found. found ≡ request_in (shape_of primary.S2F23) part.now.item) }
{
    match Five::<Identifier, Words, Identifier, Identifier, Each<Identifier>>::read(alloc, part)? {
        Some((trid, dsper, total, group, svids)) => Ok(Some(Request::Trace {
            trid,
            dsper,
            total,
            group,
            svids,
        })),
        None => Ok(None),
    }
}

fn constant_names<'a>(alloc: Global, part: &Part<'a>) -> Result<Option<Request<'a>>, NoMemory>
    ensures { IfOk result (λ found. found ≡ request_in (shape_of primary.S2F29) part.now.item) }
{
    match Each::<Identifier>::read(alloc, part)? {
        Some(ids) => Ok(Some(Request::OfTables(TablesRequest::ConstantNames(ids)))),
        None => Ok(None),
    }
}

fn define<'a>(alloc: Global, part: &Part<'a>) -> Result<Option<Request<'a>>, NoMemory>
    ensures { IfOk result (λ found. found ≡ request_in (shape_of primary.S2F33) part.now.item) }
{
    match Both::<Identifier, Each<Definition>>::read(alloc, part)? {
        Some((dataid, list)) => Ok(Some(Request::OfTables(TablesRequest::Define { dataid, list }))),
        None => Ok(None),
    }
}

fn link<'a>(alloc: Global, part: &Part<'a>) -> Result<Option<Request<'a>>, NoMemory>
    ensures { IfOk result (λ found. found ≡ request_in (shape_of primary.S2F35) part.now.item) }
{
    match Both::<Identifier, Each<Linking>>::read(alloc, part)? {
        Some((dataid, list)) => Ok(Some(Request::OfTables(TablesRequest::Link { dataid, list }))),
        None => Ok(None),
    }
}

fn enable_events<'a>(alloc: Global, part: &Part<'a>) -> Result<Option<Request<'a>>, NoMemory>
    ensures { IfOk result (λ found. found ≡ request_in (shape_of primary.S2F37) part.now.item) }
{
    match Both::<Flag, Each<Identifier>>::read(alloc, part)? {
        Some((on, ceids)) => Ok(Some(Request::OfTables(TablesRequest::EnableEvents { on, ceids }))),
        None => Ok(None),
    }
}

fn announce<'a>(alloc: Global, part: &Part<'a>) -> Result<Option<Request<'a>>, NoMemory>
    ensures { IfOk result (λ found. found ≡ request_in (shape_of primary.S2F39) part.now.item) }
{
    match Both::<Identifier, Identifier>::read(alloc, part)? {
        Some((dataid, length)) => Ok(Some(Request::OfTables(TablesRequest::Announce {
            dataid,
            length,
        }))),
        None => Ok(None),
    }
}

fn replace_rule<'a>(alloc: Global, part: &Part<'a>) -> Result<Option<Request<'a>>, NoMemory>
    ensures { IfOk result (λ found. found ≡ request_in (shape_of primary.S2F43) part.now.item) }
{
    match Each::<RuleEntry>::read(alloc, part)? {
        Some(list) => Ok(Some(Request::OfTables(TablesRequest::ReplaceRule(list)))),
        None => Ok(None),
    }
}

fn alarms<'a>(alloc: Global, part: &Part<'a>) -> Result<Option<Request<'a>>, NoMemory>
    ensures { IfOk result (λ found. found ≡ request_in (shape_of primary.S5F5) part.now.item) }
{
    match Identifiers::read(alloc, part)? {
        Some(ids) => Ok(Some(Request::OfTables(TablesRequest::Alarms(ids)))),
        None => Ok(None),
    }
}

fn event_report<'a>(alloc: Global, part: &Part<'a>) -> Result<Option<Request<'a>>, NoMemory>
    ensures { IfOk result (λ found. found ≡ request_in (shape_of primary.S6F15) part.now.item) }
{
    match Identifier::read(alloc, part)? {
        Some(ceid) => Ok(Some(Request::OfTables(TablesRequest::EventReport(ceid)))),
        None => Ok(None),
    }
}

fn report<'a>(alloc: Global, part: &Part<'a>) -> Result<Option<Request<'a>>, NoMemory>
    ensures { IfOk result (λ found. found ≡ request_in (shape_of primary.S6F19) part.now.item) }
{
    match Identifier::read(alloc, part)? {
        Some(rptid) => Ok(Some(Request::OfTables(TablesRequest::Report(rptid)))),
        None => Ok(None),
    }
}

fn inquire<'a>(alloc: Global, part: &Part<'a>) -> Result<Option<Request<'a>>, NoMemory>
    ensures { IfOk result (λ found. found ≡ request_in (shape_of primary.S7F1) part.now.item) }
{
    match Both::<Ppid, Identifier>::read(alloc, part)? {
        Some((name, length)) => Ok(Some(Request::OfRecipes(RecipesRequest::Inquire {
            name,
            length,
        }))),
        None => Ok(None),
    }
}

/// The recipe of a body that is to be one.
fn sent<'a>(body: &'a [u8], check: &BodyCheck) -> Option<Request<'a>>
    requires { check.now ≡ check_of body.now }
    ensures { IsFound (FitsShape (shape_of primary.S7F3) body.now) result }
{
    match checked_part(body, check) {
        Some(part) => recipe(&part),
        None => None,
    }
}

/// The recipe that the item is. Its own body are the bytes behind the name, as they came.
fn recipe<'a>(part: &Part<'a>) -> Option<Request<'a>>
    ensures { result ≡ sent part.now.item (behind_item part.now.content) }
{
    let (first, bytes) = first_and_bytes(part)?;
    let name = first.recipe_name()?;
    Some(Request::OfRecipes(RecipesRequest::Send {
        name,
        body: Spelled { bytes },
    }))
}

fn ask<'a>(part: &Part<'a>) -> Option<Request<'a>>
    ensures { result ≡ request_in (shape_of primary.S7F5) part.now.item }
{
    let name = part.recipe_name()?;
    Some(Request::OfRecipes(RecipesRequest::Ask(name)))
}

fn delete<'a>(alloc: Global, part: &Part<'a>) -> Result<Option<Request<'a>>, NoMemory>
    ensures { IfOk result (λ found. found ≡ request_in (shape_of primary.S7F17) part.now.item) }
{
    match Each::<Ppid>::read(alloc, part)? {
        Some(names) => Ok(Some(Request::OfRecipes(RecipesRequest::Delete(names)))),
        None => Ok(None),
    }
}

fn display<'a>(alloc: Global, part: &Part<'a>) -> Result<Option<Request<'a>>, NoMemory>
    ensures { IfOk result (λ found. found ≡ request_in (shape_of primary.S10F3) part.now.item) }
{
    match Both::<Code, Words>::read(alloc, part)? {
        Some((tid, text)) => Ok(Some(Request::OfTables(TablesRequest::Display { tid, text }))),
        None => Ok(None),
    }
}

fn display_lines<'a>(alloc: Global, part: &Part<'a>) -> Result<Option<Request<'a>>, NoMemory>
    ensures { IfOk result (λ found. found ≡ request_in (shape_of primary.S10F5) part.now.item) }
{
    match Both::<Code, Each<Words>>::read(alloc, part)? {
        Some((tid, texts)) => Ok(Some(Request::OfTables(TablesRequest::DisplayLines {
            tid,
            texts,
        }))),
        None => Ok(None),
    }
}

fn command<'a>(alloc: Global, part: &Part<'a>) -> Result<Option<Request<'a>>, NoMemory>
    ensures { IfOk result (λ found. found ≡ request_in (shape_of primary.S2F41) part.now.item) }
{
    let Some((name, params)) = two_of(part) else {
        return Ok(None);
    };
    let Some(name) = name.text() else {
        return Ok(None);
    };
    match Each::<Both<Words, Anything>>::read(alloc, &params)? {
        Some(_) => {
            let params = params.into_params();
            Ok(Some(Request::OfTables(TablesRequest::Command { name, params })))
        }
        None => Ok(None),
    }
}

fn enable_alarms<'a>(alloc: Global, part: &Part<'a>) -> Result<Option<Request<'a>>, NoMemory>
    ensures { IfOk result (λ found. found ≡ request_in (shape_of primary.S5F3) part.now.item) }
{
    match Both::<Code, IdentifierOrAll>::read(alloc, part)? {
        Some((aled, alid)) => {
            let on = aled >= 0x80;
            Ok(Some(Request::OfTables(TablesRequest::EnableAlarms { on, alid })))
        }
        None => Ok(None),
    }
}

fn spool<'a>(alloc: Global, part: &Part<'a>) -> Result<Option<Request<'a>>, NoMemory>
    ensures { IfOk result (λ found. found ≡ request_in (shape_of primary.S6F23) part.now.item) }
{
    match SmallNumber::read(alloc, part)? {
        Some(0) => Ok(Some(Request::TransmitSpool)),
        Some(1) => Ok(Some(Request::PurgeSpool)),
        _ => Ok(None),
    }
}

//! Process programs: what a host asks of the recipes, how a keeper answers that, and the text of the answer.

ghost use Rattle.std.specs.Prelude.{◌≡◌, ◌||◌, ◌+◌, length, map, nat_lt, true, false, IfOk, Ok};
ghost use Rattle.equipment_tables.specs.Answers.{IsWithin};
ghost use Rattle.gem_recipes.specs.Asking.{has_failed, is_change};
ghost use Rattle.gem_recipes.specs.Keeper.{HasKeeperCause, IsSoundUnless};
ghost use Rattle.gem_recipes.specs.Recipes.{IsPpid};
ghost use Rattle.secs_items.specs.declared.item.Item.TheVariants as item;
ghost use Rattle.tool_core.specs.Node.{own_of};
ghost use Rattle.tool_core.specs.Serving.{HasServed, IsKept, ServesOwed};
ghost use Rattle.tool_core.specs.Turns.{TakesTurn};
ghost use Rattle.tool_step.specs.Own.{turn_of};
ghost use Rattle.tool_step.specs.Recipes.{RecipesView, asked_of as asked, bounded_text, owes_recipes, recipe_text as text_of_recipe, recipes_body, recipes_text as text_of_answer, recipes_turn, takes_stream};
ghost use Rattle.tool_step.specs.Sent.{answer_duties};

use crate::own::{Own, Tool};
use crate::setup::untold;
use equipment_tables::{Answer, are_bytes, bounded};
use gem_recipes::{Ppid, RecipeKeeper, RecipesAnswer, RecipesAsked, Unanswered};
use gem_shapes::{RecipeName, RecipesRequest, code_item, is_known_stream};
use gl_base::{NoMemory, Row};
use message_end::Stop;
use message_flow::{Message, StepOut};
use secs_items::Item;
use std::alloc::Global;
use tool_step::Owed;

impl Own {
    /// Whether some primary of this stream is taken: of stream 7 only where a host is offered recipes.
    pub(crate) fn takes_stream(&self, stream: u8) -> bool
        ensures { result ≡ takes_stream (own_of self.now) stream }
    {
        is_known_stream(stream) && (self.offers || stream != 7)
    }
}

impl Tool {
    /// Owes what a host asks of the recipes, which are asked behind the works of the step. What changes nothing and
    /// wants no answer isn't asked.
    pub(crate) fn ask_recipes(
        &mut self,
        alloc: Global,
        request: &RecipesRequest<'_>,
        message: &Message,
        _out: &mut StepOut,
    ) -> Result<(), Stop>
        ensures does { TakesTurn (recipes_turn (asked request.now) message.now) self.old _out.old self.new _out.new
            result }
        ensures line { _out.new.line ≡ _out.old.line }
    {
        let asked = asked_of(alloc, request)?;
        if !is_asked(&asked, message) {
            return Ok(());
        }
        self.own.owed = Some(Owed::Recipes(asked, untold(alloc, message)));
        Ok(())
    }

    /// A keeper answers what is asked of the recipes in this step; where nothing is, it isn't asked, and all stays.
    /// `Failed` and `NoMemory` come of the keeper alone; what it does and leaves then is what `RecipesAsked::answer_by`
    /// says.
    pub fn serve<K: RecipeKeeper>(
        &mut self,
        alloc: Global,
        keeper: &mut K,
    ) -> Result<(), Unanswered>
        requires { owes_recipes self.old.own.owed ≡ true → K.sound keeper.old }
        ensures serves { (kept : RecipesView) → IsKept K.RecipeKeeper keeper.old kept
            → ServesOwed K.RecipeKeeper kept (own_of self.old.own) (own_of self.new.own) keeper.new result }
        ensures own { IfOk result (λ done. HasServed (own_of self.old.own) (own_of self.new.own)) }
        ensures core { self.new.core ≡ self.old.core }
        ensures none { owes_recipes self.old.own.owed ≡ false
            → (result ≡ Ok tt) × (own_of self.new.own ≡ own_of self.old.own) × (keeper.new ≡ keeper.old) }
        ensures same { (K.slots keeper.new ≡ K.slots keeper.old) × (K.offers_is keeper.new ≡ K.offers_is keeper.old) }
        ensures sound { K.sound keeper.old → IsSoundUnless (has_failed result) (K.sound keeper.new) }
        ensures cause { HasKeeperCause (has_failed result) (K.faults keeper.old) (K.faults keeper.new) }
    {
        match self.own.owed.take() {
            Some(Owed::Recipes(asked, primary)) => match asked.answer_by(alloc, keeper) {
                Ok(given) => {
                    self.own.owed = Some(Owed::Answered(given, primary));
                    Ok(())
                }
                Err(why) => Err(why),
            },
            Some(Owed::Keep(primary)) => {
                self.own.owed = Some(Owed::Keep(primary));
                Ok(())
            }
            Some(Owed::Answered(given, primary)) => {
                self.own.owed = Some(Owed::Answered(given, primary));
                Ok(())
            }
            None => Ok(()),
        }
    }

    /// Answers a primary by what the recipes have answered.
    pub(crate) fn answer_recipes(
        &mut self,
        alloc: Global,
        given: &RecipesAnswer,
        primary: &Message,
        out: &mut StepOut,
    ) -> Result<(), Stop>
        ensures does { TakesTurn (λ own. turn_of own (answer_duties (text_of_answer own given.now) primary.now))
            self.old out.old self.new out.new result }
        ensures line { out.new.line ≡ out.old.line }
    {
        let answer = recipes_text(alloc, given, self.own.max_body())?;
        self.answer_by(alloc, answer, primary, out)
    }
}

// Whether the recipes are asked for it: what changes nothing isn't asked where no answer is wanted.
fn is_asked(asked: &RecipesAsked, message: &Message) -> bool
    ensures { result ≡ (message.now.wait || is_change asked.now) }
{
    message.wait || asked.is_change()
}

// What a request asks, with names and a body of its own.
fn asked_of(alloc: Global, request: &RecipesRequest<'_>) -> Result<RecipesAsked, NoMemory>
    ensures { IfOk result (λ owned. owned ≡ asked request.now) }
{
    Ok(match request {
        RecipesRequest::Inquire { name, length } => RecipesAsked::Inquire {
            name: own_name(alloc, name)?,
            length: *length,
        },
        RecipesRequest::Send { name, body } => RecipesAsked::Send {
            name: own_name(alloc, name)?,
            body: Row::of(alloc, body.bytes())?,
        },
        RecipesRequest::Ask(name) => RecipesAsked::Ask(own_name(alloc, name)?),
        RecipesRequest::Delete(names) => RecipesAsked::Delete(own_names(alloc, names.as_slice())?),
        RecipesRequest::List => RecipesAsked::List,
    })
}

fn own_name(alloc: Global, name: &RecipeName<'_>) -> Result<Ppid, NoMemory>
    ensures { IfOk result (λ owned. owned ≡ name.now) }
{
    Ppid::of(alloc, name.bytes())
}

fn own_names(alloc: Global, names: &[RecipeName<'_>]) -> Result<Row<Ppid>, NoMemory>
    ensures { IfOk result (λ owned. owned ≡ names.now) }
{
    let mut owned = Row::new(alloc);
    for name in names {
        owned.push(own_name(alloc, name)?)?;
    }
    Ok(owned)
}

// The text of an answer: `TooLong` exactly where it has more bytes than may be sent.
fn recipes_text(alloc: Global, given: &RecipesAnswer, max_body: u32) -> Result<Answer, NoMemory>
    ensures is { IfOk result (λ answer. answer ≡ recipes_body max_body given.now) }
    ensures within { IfOk result (IsWithin max_body) }
{
    match given {
        RecipesAnswer::Code(code) => bounded(alloc, &code_item(alloc, *code)?, max_body),
        RecipesAnswer::Body {
            name,
            body: Some(body),
        } => recipe_text(alloc, name, body.as_slice(), max_body),
        RecipesAnswer::Body { body: None, .. } => {
            bounded(alloc, &Item::L(Row::new(alloc)), max_body)
        }
        RecipesAnswer::Names(names) => {
            bounded(alloc, &names_item(alloc, names.as_slice())?, max_body)
        }
    }
}

// L,2 of a name and a body, of which the bytes are those that are kept.
fn recipe_text(alloc: Global, name: &Ppid, body: &[u8], max_body: u32) -> Result<Answer, NoMemory>
    ensures is { IfOk result (λ answer. answer ≡ bounded_text max_body (text_of_recipe name.now body.now)) }
    ensures within { IfOk result (IsWithin max_body) }
{
    let bytes = name.bytes();
    if is_longer(body.len(), 4 + bytes.len(), max_body) {
        return Ok(Answer::TooLong);
    }
    // (L of two, and the head of A, of which the length takes one byte)
    let mut text = Row::of(alloc, &[1, 2, 65, short_len(bytes)])?;
    text.extend(bytes)?;
    text.extend(body)?;
    are_bytes(text.as_slice());
    Ok(Answer::Body(text))
}

// Whether two lengths come to more bytes than may be sent.
fn is_longer(first: usize, other: usize, max_body: u32) -> bool
    ensures { result ≡ nat_lt max_body (first + other) }
{
    first.saturating_add(other) > max_body as usize
}

// The length of a name in one byte.
fn short_len(name: &[u8]) -> u8
    requires { IsPpid name.now }
    ensures { result ≡ length name.now }
{
    name.len() as u8
}

// L of these names.
fn names_item(alloc: Global, names: &[Row<u8>]) -> Result<Item, NoMemory>
    ensures { IfOk result (λ list. list ≡ item.L (map item.A names.now)) }
{
    let mut items = Row::new(alloc);
    for name in names {
        items.push(Item::text(alloc, name.as_slice())?)?;
    }
    Ok(Item::L(items))
}

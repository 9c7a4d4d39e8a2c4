//! How long S2F42 is, without building it.

ghost use Rattle.std.specs.Prelude.{◌≡◌, ◌≤◌, ℕ, List, length, IfOk, Some};
ghost use Rattle.std.specs.List.{flat_map};
ghost use Rattle.secs_items.specs.declared.item.Item.{Item};
ghost use Rattle.secs_items.specs.Measures.{capped};
ghost use Rattle.secs_items.specs.Spelling.{shortest_spelling};
ghost use Rattle.gem_remote.specs.declared.remote.Remoted.{Remoted};
ghost use Rattle.gem_remote.specs.Commands.{Answers, AnswersFor, HasRefusalSize, IsSizeOf, Param, param_item, params_item, refusal_item, remoted_with};

use crate::plan::CommandPlan;
use crate::remote::{Remote, cpack_of};
use gl_base::NoMemory;
use secs_items::{Item, ItemView, list_len, text_len};
use std::alloc::Global;

impl Remote {
    /// How many bytes the reply of [`Remote::command`] has, or `usize::MAX` where it has more. It takes memory for the
    /// parameters alone.
    pub fn reply_len(
        &self,
        alloc: Global,
        local: bool,
        name: &[u8],
        params: &ItemView<'_>,
    ) -> Result<usize, NoMemory>
        ensures { (all : List Param) (answer : Remoted) → params.now.item ≡ params_item all
            → Answers self.now local name.now all answer
            → IfOk result (λ len. len ≡ capped (length (shortest_spelling answer.reply))) }
    {
        if local {
            return Ok(bare_reply_len(0, 0));
        }
        match self.plan.command(name) {
            None => Ok(bare_reply_len(0, 0)),
            Some(command) => Ok(reply_len(command, &params.item(alloc)?)),
        }
    }
}

// The reply's length with so many refusals of so many bytes together.
fn bare_reply_len(count: usize, together: usize) -> usize
    ensures { (hcack : ℕ) (items : List Item) → IsSizeOf items (count, together)
        → result ≡ capped (length (shortest_spelling (remoted_with hcack items).reply)) }
{
    let refusals = list_len(count, together);
    list_len(2, refusals.saturating_add(3))
}

// The length of the answer to a command that the plan has, with the second part of S2F41.
fn reply_len(command: &CommandPlan, params: &Item) -> usize
    ensures { (all : List Param) (answer : Remoted) → params.now ≡ params_item all
        → AnswersFor (Some command.now) all answer
        → result ≡ capped (length (shortest_spelling answer.reply)) }
{
    let Item::L(params) = params else {
        return 0;
    };
    let mut count = 0;
    let mut len: usize = 0;
    for param in params.as_slice() {
        let (one, bytes) = refusal_size(command, param);
        count += one;
        len = len.saturating_add(bytes);
    }
    bare_reply_len(count, len)
}

// How many refusals a parameter has, one or none, and how many bytes they have.
fn refusal_size(command: &CommandPlan, param: &Item) -> (usize, usize)
    ensures few { result.0 ≤ 1 }
    ensures size { (one : Param) → param.now ≡ param_item one → HasRefusalSize command.now.params one result }
{
    let Item::L(parts) = param else {
        return (0, 0);
    };
    let [Item::A(name), value] = parts.as_slice() else {
        return (0, 0);
    };
    if cpack_of(command, name.as_slice(), value) == 0 {
        (0, 0)
    } else {
        (1, refusal_len(name.len()))
    }
}

// The length of a refusal whose CPNAME has so many characters.
fn refusal_len(name_len: usize) -> usize
    ensures { (name : List ℕ) (cpack : ℕ) → length name ≡ name_len
        → result ≡ capped (length (shortest_spelling (refusal_item (name, cpack)))) }
{
    list_len(2, text_len(name_len).saturating_add(3))
}

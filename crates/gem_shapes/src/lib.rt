//! What the messages of a host ask the equipment for, by the shapes of their bodies (SEMI E5).
#![tactic(auto)]

mod answers;
mod entries;
mod form;
mod laws;
mod part;
mod primary;
mod reading;
mod request;

pub use answers::{code_item, identity_item, pair_item};
pub use entries::{Definition, Linking, RuleEntry};
pub use laws::a_body_asks_for_one_thing;
pub use part::{Params, RecipeName, Spelled, Text};
pub use primary::{Primary, is_known, is_known_stream};
pub use reading::read_request;
pub use request::{RecipesRequest, Request, TablesRequest};

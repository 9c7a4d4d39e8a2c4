//! Items of SECS-II, read and written (SEMI E5).
#![tactic(auto)]

mod body_check;
mod element;
mod encode_fault;
mod equality;
mod head;
mod item;
mod item_fault;
mod item_view;
mod kind;
mod laws;
mod measures;
mod open_lists;
mod point;
mod reading;
mod verdict;
mod verdict_laws;
mod writing;

pub use body_check::BodyCheck;
pub use encode_fault::EncodeFault;
pub use item::{Item, MAX_DEPTH};
pub use item_fault::ItemFault;
pub use item_view::{ItemView, check, front, view};
pub use kind::Kind;
pub use laws::{
    no_fault_exactly_in_a_spelling, no_spelling_begins_another, where_each_fault_stands,
};
pub use measures::{list_len, text_len};
pub use reading::decode;
pub use verdict::Verdict;
pub use verdict_laws::verdicts_tell_of_spellings;
pub use writing::encode_into;

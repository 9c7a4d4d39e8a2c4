//! Items as text, printed and read (this profile).
#![tactic(auto)]

mod forms;
mod laws;
mod lexing;
mod numbers;
mod printing;
mod reading;
mod text_fault;

pub use laws::{
    a_fault_or_an_item, one_item_a_text, reading_meets_the_fault, what_was_read_is_shallow,
};
pub use printing::print;
pub use reading::read;
pub use text_fault::TextFault;

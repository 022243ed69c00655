//! What a field engineer reads off a block file: the checklist as values, and as text.
#![tactic(auto)]

mod sheet;
mod soft;
mod soft_text;
mod text;
mod words;

pub use sheet::{BadSheet, Sheet, SoftCount, inspect};
pub use soft::{SoftFault, SoftSheet, soft_places, soft_sheet};
pub use words::reason;

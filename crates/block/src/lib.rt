//! The block file: three fields, read one by one as parts of the input, or the first refusal.
#![tactic(auto)]

mod check;
mod code;
mod due;
mod field;
mod laws;
mod numbers;
mod reader;
mod receives;
mod unlisted;

pub use code::{CheckCode, StoreCode};
pub use due::Due;
pub use field::Field;
pub use laws::{granted_files_are_laid_out, laid_out_files_are_granted};
pub use numbers::{Numbers, PlanNumbers, SearchNumbers};
pub use reader::{Block, Fields, examine, field_at, numbers_at};
pub use receives::received;
pub use unlisted::Unlisted;

//! Why a path costs what it costs: its ledger, bit by bit, and what its codeword contradicts.
#![tactic(auto)]

mod entry;
mod soft;
mod text;

pub use entry::{BitEntry, bit_entry};
pub use soft::soft_values;
pub use text::Account;

// The river sheet: its fields on any bytes, and what tests 1 to 9 and 16 of the documents look at.
#![tactic(auto)]

pub mod editions;
pub mod faults;
pub mod fields;
mod layout;
pub mod rows;
pub mod walks;

pub use layout::LONGEST;

// The boundary rows in lent lists, and U at a step.
#![tactic(auto)]

pub mod rows;

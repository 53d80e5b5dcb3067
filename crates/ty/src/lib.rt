#![tactic(auto)]
// Types as they lie in bytes, in prefix order: in the record, or in a lent buffer.
pub mod shape;
pub mod write;

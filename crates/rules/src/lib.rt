//! The leaf rules: the attribute tests (01, section 3). The machine knows them only by their promises.
#![tactic(auto)]

pub mod attribute_matcher;

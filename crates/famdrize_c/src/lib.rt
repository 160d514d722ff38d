// The exports for programs in C and Rust (include/famdrize.h): each calls the function of the library famdrize that has its name, with its clauses.
#![tactic(auto)]

pub mod alone;
pub mod lent;
pub mod previews;
pub mod records;
pub mod running;
pub mod tables;

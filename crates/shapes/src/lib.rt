// The shapes that B1 to B4 permit: a statement's leaves, gathered, and what they have to be.
#![tactic(auto)]

mod arrays;
pub mod shape;

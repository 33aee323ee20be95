// Writing bytes, decimal numbers and eight hex digits into a lent buffer, in ASCII. Whatever the desk says goes through here.
#![tactic(auto)]

mod page;
mod print;

pub use page::{Full, Page};

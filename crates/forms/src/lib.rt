// Printing by a form: what the desk says is words, printed by the form of their request. specs/Form.antt says how a form is read.
// A form is a text, a byte for each item, and not a slice of kinds, so that a row of the table of requests is the same in the code and in
// specs/.
// Each writer looks first whether there is room for the longest that it may have to write. Without it nothing is written.
#![tactic(auto)]

mod form;
mod kind;
mod told;

pub use form::put_form;
pub use told::put_told;

// What programs print in answer, as text, each line with its end: what a call answered, what a desk and a tape hold, what a message says.
// Text goes to the start of out, or behind its first at bytes; each function answers where it then ends. What does not fit is left out.

#![tactic(auto)]

pub mod answers;
pub mod desks;
pub mod messages;

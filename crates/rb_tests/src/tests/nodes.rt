//! What no clause of the node says: examples from outside, over both logs, and that calls succeed.
//!
//! A test is a row of numbers: where a node starts, what it is made to do, and what shows afterwards. So what a row says can be read
//! beside the rules, and few functions make messages and nodes.

mod before;
mod calls;
mod differing;
mod held;
mod leading;
mod making;
mod moves;
mod roles;
mod rules;
mod seen;
mod shown;
mod terms;

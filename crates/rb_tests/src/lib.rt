//! Tests of logs, of trackers and of nodes; and of what the program does with sessions and files, over sources and outlets of which all is known or
//! that fail, and of definitions that no script reaches. There is nothing here but tests.
#![tactic(auto)]

#[cfg(test)]
mod tests;

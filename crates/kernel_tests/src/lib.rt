//! How long a removal from a list takes, which no clause says.
#![tactic(auto)]

#[cfg(test)]
mod lists;

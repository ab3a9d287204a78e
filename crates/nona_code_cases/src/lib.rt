//! Cases of the stack rule, on code by hand, and nothing else. What the code of programs does is tried by `checks/cases`.
#![tactic(auto)]

#[cfg(test)]
mod codes;

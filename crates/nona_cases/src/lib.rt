//! Cases of the calls below the program, and nothing else. A case takes a text through `parse` and `check`, calls what
//! stands below, with memory as ample as the machine's, and compares the answer. What words and files can say stands in
//! `checks/cases`.
#![tactic(auto)]

#[cfg(test)]
mod ids;
#[cfg(test)]
mod plans;
#[cfg(test)]
mod programs;
#[cfg(test)]
mod stores;
#[cfg(test)]
mod texts;
#[cfg(test)]
mod trees;

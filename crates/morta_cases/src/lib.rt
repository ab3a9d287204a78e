//! Cases of runs, and nothing else. A case takes a text through `parse` and `check`, calls what runs it, with memory as ample as
//! the machine's, and compares the answer. What words and files can say stands in `checks/cases`.
#![tactic(auto)]

#[cfg(test)]
mod images;
#[cfg(test)]
mod programs;
#[cfg(test)]
mod runs;
#[cfg(test)]
mod scripts;
#[cfg(test)]
mod texts;

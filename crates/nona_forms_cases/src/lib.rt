//! Cases of forms, of the accesses of loops, of the dependence test, of the guard, of dependence graphs, of plans and of regions,
//! and nothing else. A case takes a text through `parse` and `check`, calls what stands below, with memory as ample as the
//! machine's, and compares the answer.
#![tactic(auto)]

#[cfg(test)]
mod forms;
#[cfg(test)]
mod graphs;
#[cfg(test)]
mod guards;
#[cfg(test)]
mod pairs;
#[cfg(test)]
mod plans;
#[cfg(test)]
mod programs;
#[cfg(test)]
mod rules;
#[cfg(test)]
mod spots;

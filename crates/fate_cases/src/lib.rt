//! Cases of reads and writes that fail in mid-stream, and nothing else. Files of the machine are tried by `checks/program`.
#![tactic(auto)]

#[cfg(test)]
mod streams;

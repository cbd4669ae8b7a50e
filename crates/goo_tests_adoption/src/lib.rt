//! Tables of a registry in another form than ours, in memory. It has tests alone.
#![tactic(auto)]

#[cfg(test)]
mod forms;

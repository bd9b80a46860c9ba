// Lists of calls at each of the three kinds, stores and rules.
#![tactic(auto)]

#[cfg(test)]
mod heard;
#[cfg(test)]
mod lists_tests;

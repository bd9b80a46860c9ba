// Small cases of the kinds, of the stores and of what is read from them.
#![tactic(auto)]

#[cfg(test)]
mod kinds_tests;
#[cfg(test)]
mod ranges_tests;
#[cfg(test)]
mod slots_tests;

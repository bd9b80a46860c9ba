// Small cases of a script's text and of the printed lines.
#![tactic(auto)]

#[cfg(test)]
mod lines_tests;
#[cfg(test)]
mod text_tests;

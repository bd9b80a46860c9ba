// The ledger at its limits: the longest log, short tables, and the last query that is counted.
#![tactic(auto)]

#[cfg(test)]
mod asking;
#[cfg(test)]
mod counts_tests;
#[cfg(test)]
mod rehearsal_tests;
#[cfg(test)]
mod tables_tests;

// Tests of the parts over lent memory and of the other rules, each beside a plain model.
#![tactic(auto)]

#[cfg(test)]
mod contents_tests;
#[cfg(test)]
mod index_tests;
#[cfg(test)]
mod loads_tests;
#[cfg(test)]
mod random;
#[cfg(test)]
mod rules_tests;

//! Tests of the readers of reports: whole reports, single calls, and reports in which one line is changed.
#![tactic(auto)]

#[cfg(test)]
mod calls;
#[cfg(test)]
mod faults;
#[cfg(test)]
mod reports;

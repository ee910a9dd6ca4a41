// The tests: a module for each subject, and what they share in `helpers`.

mod audits;
mod checked;
mod earlier;
mod helpers;
mod limits;
mod memory;
mod orders;
mod padded;
mod pool;
mod refusals;
mod stages;
mod watched;

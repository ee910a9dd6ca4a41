// The tests: a module for each subject, and what they share in `helpers`.

mod failing;
mod generations;
mod helpers;
mod names;
mod serving;
mod spools;
mod stopping;

// The tests: a module for each subject.

mod colour;
mod linear;
mod list;
mod live;
mod ltl;
mod pairs;
mod validate;

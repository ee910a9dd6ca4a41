// Tests of the solver, from outside: live variables among three, worked out by hand and from a textbook, and how often nodes are
// visited.
//
// `live` has the facts and their transfer, `solutions` the worked sets, and `visits` the counts.

pub mod live;
#[cfg(test)]
mod solutions;
#[cfg(test)]
mod visits;

// The pool, for what no clause says about it.
//
// `helpers` has units and a gate that holds a piece, and `trial` starts a pool for most tests; `tickets` tests what comes back
// from jobs, `held` pieces and jobs that are held while others are made, `crowds` many threads that share a pool, `ends` how a
// pool ends, and `same` whether the pool makes the same image as one thread.

#[cfg(test)]
mod crowds;
#[cfg(test)]
mod ends;
#[cfg(test)]
mod held;
#[cfg(test)]
mod helpers;
#[cfg(test)]
mod same;
#[cfg(test)]
mod tickets;
#[cfg(test)]
mod trial;

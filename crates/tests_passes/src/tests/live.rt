// Tests of live sets and of functions without dead nodes, from outside: sets worked out by hand, which nodes are dropped and
// which remain, and that functions of some 4,096 nodes are analyzed in time.
//
// `helpers` makes the RTL of one function of a text, `worked` has the sets and the nodes that are dropped, and `large` the long
// functions.

#[cfg(test)]
mod helpers;
#[cfg(test)]
mod large;
#[cfg(test)]
mod worked;

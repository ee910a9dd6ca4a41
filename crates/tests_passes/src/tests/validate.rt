// Tests of the validator: each single change of an allocation is refused, or makes no difference that small interpreters of RTL
// and LTL see.
//
// `texts` has the functions, `graph` and `located` are the two interpreters, `world` is what they share, `changes` makes the
// changes, and `mutations` tries each. `bytes` tests allocations as bytes, `calls` which registers keep a value across a call,
// and `turns` few and many moves that pass words round.

#[cfg(test)]
mod bytes;
#[cfg(test)]
mod calls;
#[cfg(test)]
mod changes;
#[cfg(test)]
mod graph;
#[cfg(test)]
mod located;
#[cfg(test)]
mod mutations;
#[cfg(test)]
mod texts;
#[cfg(test)]
mod turns;
#[cfg(test)]
mod world;

// Tests of the register allocator from outside, with the validator as judge. The validator refuses none of the allocator's
// answers for the programs of `bench`, and the allocator answers for any live sets that it is given.

#[cfg(test)]
mod accepted;
#[cfg(test)]
mod functions;
#[cfg(test)]
mod strange;

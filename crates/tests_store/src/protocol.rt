// Tests of the protocol core from outside: over builds of their own, in which each source has one piece or two, and over the
// build that compiles.
//
// `script` plays events and looks at their answers. `piece` has what a worker makes in the tests' own builds, `builds` has these
// builds, and `played` looks at what scripts over one of them leave: `commits` has the worked table and the answers of a commit,
// `crashes` crashes at each event, `opened` begins on disks with units, and `rewrites` tests rewrites. `compiled` looks at what
// scripts over the build that compiles leave: `units` has their commits, refusals and crashes.

mod builds;
mod commits;
mod compiled;
mod crashes;
mod opened;
mod piece;
mod played;
mod rewrites;
mod script;
mod units;

// Tests of `cc_rv32` and `cc_hex` on values from outside.
//
// `listing` has words as GNU as encodes them, and the listing's table. `limits` has words that are not in the table, operands at the
// ends of their ranges, and the lengths of images. `hex` has Intel HEX as objcopy writes it. `runs` has worked runs, and vectors of
// the public RISC-V test suite (riscv-tests, rv32ui and rv32um) for each instruction.

mod hex;
mod limits;
mod listing;
mod runs;
mod turns;

//! The machine: RV32IM instruction words, their listing, and a simulator (RISC-V unprivileged ISA, RV32I and M).
//!
//! - `operand` and `instr`: the instructions.
//! - `encode` and `decode`: their words.
//! - `image`: a program with its data.
//! - `machine`: runs an image. `lowered` is its code, decoded once; `memory` and `execute` execute one instruction.
//! - `map`: the addresses of the parts of its memory.
//! - `listing`: prints an image; `operands`: what follows an instruction's name.
//!
//! The instruction table, the state and the run are defined in `specs/`, in reading order.
#![tactic(auto)]

pub mod decode;
pub mod encode;
mod execute;
pub mod fault;
pub mod image;
pub mod instr;
pub mod listing;
mod lowered;
pub mod machine;
pub mod map;
mod memory;
pub mod operand;
mod operands;
pub mod outcome;
mod simulator;

//! The compiler as a whole: from a text to its program, from the pieces of a program's functions to the unit that the library keeps, with its
//! certificate; and the audit of such a unit.
#![tactic(auto)]

mod allocations;
mod audit_answer;
mod auditing;
mod build_fault;
mod certificate;
mod compiled;
mod compiling;
mod fault;
mod function;
mod globals;
mod laws;
mod linking;
mod order;
mod passes;
mod piece_fault;
mod text;
mod watching;
mod words;

pub use audit_answer::{Audit, FailedPart};
pub use auditing::{audit, audit_in, compile_along_in, failed_part_in};
pub use build_fault::BuildFault;
pub use cc_c_semantics::Mode;
pub use cc_unit::{Certificate, MOST_SOURCE, Source, StoredUnit};
pub use compiled::{Compilation, CompiledUnit};
pub use compiling::{compile, compile_functions_in, compile_in, compile_whole_in};
pub use fault::LinkFault;
pub use function::{compile_function, compile_function_in, compile_watched_in};
pub use laws::{
    agreement_in_words, linked_units_agree, linked_units_are_backed, linked_units_follow,
    made_units_are_certified,
};
pub use linking::{lend, link, link_in, link_lent, link_pieces_in};
pub use order::in_order;
pub use piece_fault::PieceFault;
pub use text::{TextFault, typed_unit, verdicts_are_determined};
pub use watching::{Allocation, Allocator, Seen, Unwatched, Watch};

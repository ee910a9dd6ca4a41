//! Libraries in files: the commands `call`, `diff`, `log`, `restore`, `copy`, `pack`, `unpack` and `hash`, `size` and `audit` of a
//! unit, and `image` and `source` of what a command stored.
//!
//! `auditing` audits a unit, `packing` packs and unpacks units, `unit_file` reads their files, `calling` runs a unit, `words` reads input words
//! from a file, `measuring` says how much memory a unit needs, `comparing` how two libraries differ, `copying` copies
//! units into a new library, `logging` prints the commands of a library, `past` has what one of these commands stored, `telling`
//! writes and explains a fault. The answers are proved in `cc_call`, `cc_diff`, `cc_log`, `cc_past`, `cc_copy` and
//! `cc_packing`; this crate handles the files. The crate exports `audit_in_file`, `audit_of_file`, `pack_in_file`,
//! `unit_from_file`, `refuse_unit`, `call_in_file`, `size_in_file`, `diff_files`, `log_of_file`, `take_out_of_past`,
//! `restore_in_file` and `copy_file`.
#![tactic(auto)]

mod auditing;
mod calling;
mod comparing;
mod copying;
mod logging;
mod measuring;
mod packing;
mod past;
mod telling;
mod unit_file;
mod words;

pub use auditing::{Auditing, audit_in_file, audit_of_file};
pub use calling::call_in_file;
pub use comparing::diff_files;
pub use copying::copy_file;
pub use logging::log_of_file;
pub use measuring::size_in_file;
pub use packing::pack_in_file;
pub use past::{restore_in_file, take_out_of_past};
pub use unit_file::{NoUnit, refuse_unit, unit_from_file};
pub use words::{NoWords, words_of_file};

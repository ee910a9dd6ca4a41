//! The book of a service: a library with the history of its calls, which many clients change one call at a time. The crate has no
//! lock and no thread; a service puts a lock around the book.
//!
//! `named` has what the book's parameter names, `member` the caller, and `fault` why a call is refused. `recorded` is the library
//! with the history of its calls, `entering` puts an entry into the history, `closing` checks whether the library can be ended
//! with its clients. `book` is that library with what a crash may have left since each call; its type keeps what ties it to the
//! crash theorem. `laws` says which steps of the protocol core a call is. The crate exports `Book`, `Ended`, `Member`,
//! `HasReceipts`, `BookFault`, `Based` and the laws.
#![tactic(auto)]

mod book;
mod closing;
mod entering;
mod fault;
mod laws;
mod member;
mod named;
mod recorded;

pub use book::Book;
pub use fault::BookFault;
pub use laws::{commits_are_steps, compactions_are_rewrites, jobs_are_beside, opened_books_begin};
pub use member::{HasReceipts, Member};
pub use named::Based;
pub use recorded::Ended;

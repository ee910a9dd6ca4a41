//! A library for many clients on threads of their own: a book (`cc_recorded`) under a lock, and workers that compile.
//!
//! `named` is what a service's parameter names, `client` the caller, `asking` what the caller asks a book to do, `fault` why a
//! call is refused, `closing` the end of a service. `compiling` makes a unit from a text with the workers, `desk` makes the
//! clients, `answers` has the answers of look-ups, `service` puts everything together. The crate exports `Service`, `Put`,
//! `Prepared`, `Named`, `Fresh`, `Client`, `Found`, `Listing`, `Closed`, `close` and `ServiceFault`; from `cc_recorded` the book,
//! what its parameter names and why it refuses a call; and from `cc_pool` the gate that a service's workers call.
#![tactic(auto)]

mod answers;
mod asking;
mod client;
mod closing;
mod compiling;
mod desk;
mod fault;
mod named;
mod service;

pub use answers::{Found, Listing};
pub use cc_pool::{Gate, NoGate};
pub use cc_recorded::{Based, Book, BookFault};
pub use client::Client;
pub use closing::{Closed, close};
pub use compiling::Prepared;
pub use fault::ServiceFault;
pub use named::{Fresh, MOST_CLIENTS, Named, PARTS};
pub use service::{Put, Service};

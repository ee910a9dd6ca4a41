//! A linked image as Intel HEX: a text that programmers of flash memories, simulators and `objcopy` read.
//!
//! Each line is a record: a colon, and two hexadecimal digits for each of its bytes. These are the number of data bytes, an
//! offset of two bytes, the record's type, the data, and a checksum that makes the lowest byte of their sum 0. An extended linear
//! address record gives the upper half of the addresses that follow, and the last record is the end of file.
//!
//! `specs/Format.antt` defines what a text says, independently of how this crate writes one. `record` writes one record, `image`
//! an image.
#![tactic(auto)]

pub mod image;
mod record;

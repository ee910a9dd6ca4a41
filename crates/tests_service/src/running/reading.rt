// Reads answers.

use crate::model::{Model, are_names};
use cc_disk::Disk;
use cc_history::Receipt;
use cc_service::{BookFault, Found, Listing, Named, Service, ServiceFault};
use std::test::Fail;

/// The number of an answer, 0 for Ok.
pub fn number<T: Drop>(answer: Result<T, ServiceFault>) -> u32 {
    match answer {
        Ok(done) => {
            drop(done);
            0
        }
        Err(fault) => {
            let number = fault.number();
            drop(fault);
            number
        }
    }
}

/// The disk that an opening gives back with the fault that has this number.
pub fn refused_with<N: Named, D: Disk + Drop>(
    answer: Result<Service<N, D>, (ServiceFault, D)>,
    wanted: u32,
) -> Result<D, Fail> {
    match answer {
        Ok(service) => {
            drop(service);
            Err(Fail::from("opened"))
        }
        Err((fault, disk)) => {
            let number = fault.number();
            drop(fault);
            if number != wanted {
                drop(disk);
                return Err(Fail::from("another fault"));
            }
            Ok(disk)
        }
    }
}

/// The number of the entry of a change that was made, or 0.
pub fn done_at(answer: Result<Receipt, ServiceFault>) -> u64 {
    match answer {
        Ok(receipt) => {
            let number = receipt.number;
            drop(receipt);
            number
        }
        Err(fault) => {
            drop(fault);
            0
        }
    }
}

/// The number of the entry that says that a name has no unit, or 0.
pub fn absent_at<T: Drop>(answer: Result<T, ServiceFault>) -> u64 {
    let number = match &answer {
        Err(ServiceFault::Book(BookFault::Absent(receipt))) => receipt.number,
        _ => 0,
    };
    drop(answer);
    number
}

/// Whether the answer is the entry with this number, and has the unit of this text.
pub fn is_found(answer: Result<Found, ServiceFault>, number: u64, text: &[u8]) -> bool {
    match answer {
        Ok(found) => {
            let right = found.receipt().number == number
                && found.unit().stored().source.bytes() == text;
            drop(found);
            right
        }
        Err(fault) => {
            drop(fault);
            false
        }
    }
}

/// Whether the answer is the entry with this number, and has the model's names.
pub fn is_listed(answer: Result<Listing, ServiceFault>, number: u64, model: &Model) -> bool {
    match answer {
        Ok(listing) => {
            let right = listing.receipt().number == number
                && are_names(listing.names().as_slice(), model);
            drop(listing);
            right
        }
        Err(fault) => {
            drop(fault);
            false
        }
    }
}

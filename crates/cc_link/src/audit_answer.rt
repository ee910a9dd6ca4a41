// What an audit says, and which part of a unit it does not confirm.

use crate::text::TextFault;

/// What an audit says.
#[derive(Clone, Copy)]
pub enum Audit {
    /// The image agrees with the text, and the certificate has, for each function, the allocation by which this was shown.
    Confirmed,
    /// There is no certificate.
    NoCertificate,
    /// The certificate does not show that the image agrees with the text.
    Unconfirmed,
}

/// The first part of a stored unit, in this order, that is not what this compiler makes.
#[derive(Debug, Drop)]
pub enum FailedPart {
    /// The text, which is not a program.
    Text(TextFault),
    /// A function's part of the certificate, which is missing or damaged, or does not show that code made with it does what the function
    /// does. The function's name begins in the text at the offset `at` and has `length` bytes.
    Function { at: usize, length: usize },
    /// The certificate as a whole, which has another number of functions, or bytes that are left over.
    Certificate,
    /// The image: compiling with the certificate's allocations makes another one, or one that is too large.
    Image,
}

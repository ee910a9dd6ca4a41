// Tests of LTL from outside: bytes that were written by hand, every change of one byte, and the listing.

#[cfg(test)]
mod bytes;
#[cfg(test)]
mod parts;

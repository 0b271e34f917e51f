//! Floor of values: digests of bytes, and their text.
//!
//! A digest is the SHA-256 of some bytes (FIPS 180-4, section 6.2) and how many they are, as
//! `Digest` of the Remote Execution API, version 2. Its text is the 64 lower-case hexadecimal digits
//! of the hash, a colon, and the size in decimal.
#![tactic(auto)]

mod check;
mod digest;
#[cfg(test)]
mod tests;
mod text;

pub use check::Check;
pub use digest::{Digest, DigestRefusal};
pub use text::{DigestText, are_digits, has_leading_zero, is_lower_digit};

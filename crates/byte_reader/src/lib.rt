//! Readers of fields: numbers in either order of their bytes, bytes, and texts that a zero byte ends.
//!
//! A reader is given the bytes that are left. It gives the value that stands first and the bytes behind it, or tells
//! how many bytes were left where no such field stands.
#![tactic(auto)]

mod bytes;
mod numbers;
mod unread;

pub use bytes::{array_of, bytes_of, slice_of, text_of};
pub use numbers::{be_u16_of, be_u32_of, be_u64_of, byte_of, le_u16_of, le_u32_of, le_u64_of};
pub use unread::Unread;

//! The field GF(2^m) with tables, made once for a modulus: products by windows of four bits, one reduction by bytes, and
//! squares by bytes.
#![tactic(auto)]

pub use field_tables::FieldTables;

pub mod bytes;
mod field_tables;
pub mod windows;

//! Tests of fields, checksums, batches, records and transactions in bytes.
#![tactic(auto)]

#[cfg(test)]
mod batches;
#[cfg(test)]
mod checksums;
#[cfg(test)]
mod fields;
#[cfg(test)]
mod records;
#[cfg(test)]
mod transactions;

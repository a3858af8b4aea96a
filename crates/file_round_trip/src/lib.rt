// The two round trips of document 01, as functions: "A file read and written again has the same
// bytes; a graph written and read again is the same graph with the same block."
// Their contracts are the two sentences; the laws behind them, and the longest legal file, are in
// proofs/.
// Uses `file_read` and `file_write`.
#![tactic(auto)]

pub mod round_trip; // round_trip.rt: read and write, one after the other

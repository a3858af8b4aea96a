// The C ABI of the library: the exported functions for C and Rust, over numbers and slices, each
// with its entry's contract.
// They only pass their arguments on: what an entry does stands in the crate of its family, with the
// same contract. `c_answer` says what is written and returned. A C program links the archive of
// this crate, so the names zf_* stay.
// Uses `c_mark`, `c_hops_of`, `c_find`, `c_reduce`, `c_shrink`, `c_audit` and `c_file`, one for
// each family of entries.
#![tactic(auto)]

pub mod marking; // marking.rt: check, both markings and the round question
pub mod span; // span.rt: hops of a state
pub mod find; // find.rt: find
pub mod reducing; // reducing.rt: reduce, shrink and audit
pub mod files; // files.rt: read and write

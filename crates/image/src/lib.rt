// A table in bytes that a caller lends, as the calls for C keep it between them: what the bytes are. Definitions and laws only; a reader and a writer stand on it.
#![tactic(auto)]

// How many bytes a table is.
pub const BYTES: usize = 1293;

//! Rows of the definitions: what each says of one input, shown by computing. The crate has no code. Its rows are for the
//! readers of the definitions: no proof rests on them.
#![tactic(auto)]

// The state block: a controller's state as tagged fields in bytes. The layout and which blocks are accepted are the definitions of
// specs/; nothing here runs.
#![tactic(auto)]

// Bytes, as many as a block has.
pub type Block = [u8; 354];

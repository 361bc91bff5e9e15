//! The law that a text of JSON that serde_json writes holds no NUL (RFC 8259, section 7: control
//! characters are escaped).
#![tactic(auto)]

mod laws;

pub use laws::texts_hold_no_nul;

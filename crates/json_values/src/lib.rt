//! Values of WDL as JSON: how they are written, and how JSON is read at a type (OpenWDL 1.1, "JSON
//! Serialization of WDL Types").
#![tactic(auto)]

mod declared;
mod key;
mod laws;
mod reading;
mod scalar;
mod writing;

pub use key::{key_text, key_value};
pub use laws::{reads_fit, texts_are_ordered, writings_are_read};
pub use reading::read_value;
pub use writing::json_of;

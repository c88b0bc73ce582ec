//! The configuration of the router: a TOML document comes in, and its interfaces and sessions go
//! out, or the first rule that it breaks.
#![tactic(auto)]

mod config;
mod documents;
mod edits;
mod faults;
mod interfaces;
mod kinds;
mod names;
mod reading;
mod rules;
mod sessions;
mod settings;

pub use config::Config;
pub use edits::{Edit, apply_edit};
pub use faults::{ConfigFault, ConfigKind, ReadConfig};
pub use kinds::Kinds;
pub use names::{read_mode, read_role};
pub use reading::read_config;

//! The configuration of a site: a text in TOML, read as values that are within their limits, or refused for the first row
//! that it violates.
//!
//! The rows stand in `specs/Rows.antt`, in their order, as a list; the code looks at them in that order, and no later row
//! is looked at where one is violated. Nothing is taken from the text but through the kit's `toml`, whose contract says
//! which table a text is. docs/FORMATS.md, "Configuration", has the rows for users.
#![tactic(auto)]

mod config;
mod copies;
mod error;
mod group;
mod groups;
mod known;
mod laws;
mod read;
mod space;
mod top;
mod value;
mod volumes;

pub use config::Config;
pub use error::ConfigError;
pub use laws::{a_text_is_refused_for_one_key, what_is_refused_configures_nothing};
pub use read::read_config;

#[cfg(test)]
mod tests;

//! What a site is configured with.

use dm_base::{DaemonConf, GroupConf, GroupId, Listed, SpaceConf};

/// The configuration of a site.
#[derive(Drop)]
pub struct Config {
    pub daemon: DaemonConf,
    /// How many sessions are served at a time.
    pub sessions: u8,
    /// The groups that each file is stored in, in the order in which they are asked: one or two.
    pub copies: [Option<GroupId>; 2],
    /// The groups, in ascending number.
    pub groups: Listed<GroupConf>,
    pub space: SpaceConf,
}

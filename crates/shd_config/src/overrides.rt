//! What the command line overrides.

use base_texts::Name;
use sim_base::Time;

/// The values that options of the command line give in place of those of the configuration.
#[derive(Drop)]
pub struct Overrides {
    pub seed: Option<u32>,
    pub parallelism: Option<u32>,
    pub data_directory: Option<Name>,
    pub stop_time: Option<Time>,
}

//! What is to be run: the reading half of the simulator.
#![tactic(auto)]

mod addresses;
mod captured;
mod configured;
mod fault;
mod file;
mod host_row;
pub mod laws;
mod line;
mod network;
mod one_file;
mod plan;
mod planned;
mod programs;
mod rates;
mod ring;
mod self_load;
mod workers;

pub use addresses::addresses_of;
pub use fault::{Fault, HostFault, ReadStop};
pub use host_row::{HostRow, HostRows, ImagePlaces};
pub use line::tell;
pub use plan::{Images, Plan, Settings};
pub use planned::{Planned, Run, read_plan};
pub use rates::Rates;
pub use ring::{RING, ring_bytes};
pub use self_load::{self_load_config, self_load_graph};
pub use workers::worker_count;

//! Workers at their benches.

use crate::workers::host_task::HostTask;
use crate::workers::worked::Worked;
use host_inbox::Carrier;
use sim_base::Parcel;
use steal_workers::Seat;

/// What one worker has in hand, and its work once it is done.
#[derive(Drop)]
pub(crate) struct Bench {
    pub(crate) worker: u32,
    pub(crate) seat: Seat<HostTask>,
    pub(crate) carrier: Carrier<Box<Parcel>>,
    pub(crate) worked: Option<Worked>,
}

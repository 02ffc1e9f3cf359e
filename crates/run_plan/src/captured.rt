//! The capture in a file.

ghost use Rattle.run_plan.specs.Captured.{captured};
ghost use Rattle.run_plan.specs.Reading.{gives, Meets};

use crate::fault::{Fault, ReadStop};
use base_texts::Name;
use pcap_text::{Capture, PcapError, read_pcap};
use std::alloc::Global;

/// The capture that the bytes of a file are.
pub fn parse_capture(alloc: Global, file: &str, bytes: &[u8]) -> Result<Capture, ReadStop>
    ensures { Meets (λ c. c) (gives (captured file.now bytes.now)) result }
{
    match read_pcap(alloc, bytes) {
        Ok(capture) => Ok(capture),
        Err(PcapError::Fault(fault)) => {
            let file = Name::from_str(alloc, file)?;
            Err(ReadStop::Refused(Fault::Capture(file, fault)))
        }
        Err(PcapError::NoMemory) => Err(ReadStop::NoMemory),
    }
}

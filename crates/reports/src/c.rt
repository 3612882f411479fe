//! The header of a report, for C.
ghost use Rattle.std.specs.Prelude.{◌≡◌, ◌≢◌, ◌⊎◌, ◌↔◌, ◌≤◌, ◌<◌, ◌^◌, ◌/◌, ◌%◌, ◌++◌};
ghost use Rattle.std.specs.Prelude.{ℕ, Bool, List, false, true, length};
ghost use Rattle.octets.specs.Bytes.{network, number, part};
ghost use Rattle.reports.specs.Format.{flags};

use crate::read_header;
use octets::Octets;

/// The header was read.
pub const DONE: u8 = 0;

/// The report ends within its header.
pub const SHORT: u8 = 1;

/// The fields of a header, in host byte order.
#[repr(C)]
#[derive(Clone, Copy, Debug, PartialEq, Eq)]
pub struct ReportHeader {
    /// 1 if the report can't wait, else 0.
    pub urgent: u8,
    /// The station, from 0 to 63.
    pub station: u8,
    /// 1 if there is a number of a sensor, else 0.
    pub numbered: u8,
    /// The number of the sensor, or 0.
    pub sensor: u32,
}

/// Reads the header of a report.
///
/// It returns DONE and fills in the header, or returns SHORT and changes nothing.
#[unsafe(no_mangle)]
pub extern "C" fn report_read_header(report: &[u8], header: &mut ReportHeader) -> u8
    ensures status { (result ≡ 0) ⊎ (result ≡ 1) }
    ensures plain { (urgent : Bool) (station : ℕ) (after : List ℕ) → station < 64
        → report.now ≡ network 1 (flags urgent false station) ++ after
        → (result ≡ 0) × (header.new.station ≡ station)
        × (header.new.numbered ≡ 0) × (header.new.sensor ≡ 0) }
    ensures numbered { (urgent : Bool) (station sensor : ℕ) (after : List ℕ)
        → station < 64 → sensor < 2 ^ 32
        → report.now ≡ network 1 (flags urgent true station) ++ network 4 sensor ++ after
        → (result ≡ 0) × (header.new.station ≡ station)
        × (header.new.numbered ≡ 1) × (header.new.sensor ≡ sensor) }
    ensures unchanged { result ≢ 0 → header.new ≡ header.old }
{
    match read_header(&mut Octets::with_slice(report)) {
        Ok(read) => {
            *header = ReportHeader {
                urgent: u8::from(read.urgent),
                station: read.station,
                numbered: u8::from(read.sensor.is_some()),
                sensor: read.sensor.unwrap_or(0),
            };
            DONE
        }
        Err(_) => SHORT,
    }
}

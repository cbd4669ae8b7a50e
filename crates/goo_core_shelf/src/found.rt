//! What look-ups find.

use crate::device::Device;
use goo_types::day::Day;
use goo_types::gsrn::Gsrn;
use goo_types::reply::Reply;
use goo_types::wh::Wh;

/// A device's last accepted period, and its carry.
#[derive(Clone, Copy)]
pub struct Progress {
    /// The last day of that period, if there is one.
    pub last_day: Option<Day>,
    /// The energy that is left of what it declared and that no certificate stands for yet.
    pub carry: Wh,
}

/// A device with its last accepted period and its carry.
#[derive(Clone, Copy)]
pub struct DeviceRecord {
    /// The device.
    pub device: Device,
    /// Its last accepted period, and its carry.
    pub progress: Progress,
}

/// What is kept for a caller's key.
#[derive(Clone, Copy)]
pub enum Receipt {
    /// Nothing.
    Absent,
    /// This command, with its reply.
    Same(Reply),
    /// Another command.
    Other,
}

/// What is kept for a notice's sender and number.
#[derive(Clone, Copy)]
pub enum Arrival {
    /// Nothing.
    Absent,
    /// This notice: it was imported.
    Same,
    /// Another notice.
    Other,
}

/// A device's energy and certificates in all.
#[derive(Clone, Copy)]
pub struct DeviceTotals {
    /// The device.
    pub device: Gsrn,
    /// Its declared net energy in Wh.
    pub declared_wh: u128,
    /// What corrections took off it, in Wh.
    pub corrected_wh: u128,
    /// How many certificates were issued for it.
    pub issued: u64,
    /// How many of them corrections withdrew.
    pub withdrawn_certificates: u64,
    /// The energy in Wh that is left and that no certificate stands for.
    pub carry_wh: u64,
}

//! Records of corrections.
ghost use Rattle.std.specs.Prelude.{◌≡◌};

use goo_types::act_no::ActNo;
use goo_types::command::Correct;
use goo_types::day::Day;
use goo_types::gsrn::Gsrn;
use goo_types::wh::Wh;
use std::marker::Model;

/// The record of a correction.
#[derive(Clone, Copy)]
pub struct CorrectRecord {
    /// The device whose declaration it lowers.
    pub device: Gsrn,
    /// The first day of the declared period.
    pub first_day: Day,
    /// What it takes off.
    pub less: Wh,
    /// The withdrawal of the certificates that were in excess, if there were any.
    pub withdrawal: Option<ActNo>,
}

impl Model for CorrectRecord {
    ghost use Rattle.goo_spec.specs.State.{Correction};

    ghost Value = { Correction };

    ghost view = { λ c. record { device = c.device; first_day = c.first_day; less = c.less; withdrawal = c.withdrawal } };

    ghost inverse = { λ c. record { device = c.device; first_day = c.first_day; less = c.less; withdrawal = c.withdrawal } };
}

impl CorrectRecord {
    /// The record that a correction leaves, with the number of its withdrawal, if it made one.
    pub fn of(correction: &Correct, withdrawal: Option<ActNo>) -> CorrectRecord
        ensures { result
            ≡ record {
              device = correction.now.device;
              first_day = correction.now.first_day;
              less =
                  correction.now.less;
              withdrawal = withdrawal;
            } }
    {
        CorrectRecord {
            device: correction.device,
            first_day: correction.first_day,
            less: correction.less,
            withdrawal,
        }
    }
}

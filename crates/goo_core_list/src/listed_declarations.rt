//! The accepted declarations, and what each device declared in all.
ghost use Rattle.std.specs.Prelude.{◌≡◌, ◌+◌, ◌^◌, ◌≤◌, [], ◌∷◌, ◌++◌, IfErr, OnOk, OnErr};
ghost use Rattle.goo_types.specs.declared.fault.Fault.TheVariants.{Memory};
ghost use Rattle.goo_spec.specs.Declare.{declared_by, last_end};
ghost use Rattle.goo_spec.specs.Energy.{net as net_of_one};
ghost use Rattle.goo_core_list.specs.Production.{net_by};

use crate::maps::{empty_map, find, put};
use goo_types::command::Declare;
use goo_types::day::Day;
use goo_types::fault::Fault;
use goo_types::gsrn::Gsrn;
use std::alloc::Global;
use std::collections::BTreeMap;
use std::marker::Model;

/// What a device declared until now.
#[derive(Clone, Copy)]
struct Produced {
    /// The last day of its last period.
    last_day: Day,
    /// Its net energy of all periods, in Wh.
    net: u128,
}

/// The accepted declarations, the oldest first, with the last day and the sum of each device.
#[derive(Drop)]
pub struct ListedDeclarations {
    declarations: Vec<Declare>,
    devices: BTreeMap<Gsrn, Produced>,
}

impl Model for ListedDeclarations {
    ghost use Rattle.std.specs.Prelude.{List};
    ghost use Rattle.goo_types.specs.declared.command.Declare.{Declare};
    ghost use Rattle.goo_spec.specs.State.{text_cmp};
    ghost use Rattle.goo_core_shelf.specs.Maps.{map_of};
    ghost use Rattle.goo_core_list.specs.Production.{AddsUp};

    ghost Value = { List Declare };

    ghost view = { λ p. p.declarations.items };

    ghost invariant = { λ p. AddsUp p.declarations.items (map_of text_cmp p.devices) };
}

impl ListedDeclarations {
    /// No declarations.
    pub fn new(alloc: Global) -> ListedDeclarations
        ensures { result ≡ [] }
    {
        ListedDeclarations {
            declarations: Vec::new(alloc),
            devices: empty_map(alloc),
        }
    }

    /// All of them.
    pub fn declarations(&self) -> &[Declare]
        ensures { result.now ≡ self.now }
    {
        &self.declarations
    }

    /// The net energy that a device declared, in Wh.
    pub fn net(&self, device: &Gsrn) -> u128
        ensures { result ≡ net_by device.now self.now }
    {
        match find(&self.devices, device) {
            Some(produced) => produced.net,
            None => 0,
        }
    }

    /// The end of a device's last period.
    pub fn last_day(&self, device: &Gsrn) -> Option<Day>
        ensures { result ≡ last_end None (declared_by device.now self.now) }
    {
        match find(&self.devices, device) {
            Some(produced) => Some(produced.last_day),
            None => None,
        }
    }

    /// The net energy that a device will have declared with one more declaration, in Wh.
    pub fn net_with(&self, declaration: &Declare) -> u128
        ensures value { result
            ≡ net_by declaration.now.device self.now + net_of_one declaration.now }
        ensures limit { result ≤ net_by declaration.now.device self.now + 10 ^ 15 }
    {
        let more = declaration
            .gross
            .get()
            .saturating_sub(declaration.aux.get());
        let _count = self.declarations.len();
        self.net(&declaration.device) + u128::from(more)
    }

    /// Adds a declaration.
    ///
    /// # Errors
    ///
    /// `Memory` where an allocation was refused; nothing is added then.
    pub fn add(&mut self, declaration: &Declare) -> Result<(), Fault>
        ensures done { OnOk result (self.new ≡ self.old ++ declaration.now ∷ []) }
        ensures undone { OnErr result (self.new ≡ self.old) }
        ensures memory { IfErr result (λ fault. fault ≡ Memory) }
    {
        self.declarations.reserve(1)?;
        let net = self.net_with(declaration);
        let last_day = declaration.last_day;
        put(
            &mut self.devices,
            declaration.device,
            Produced { last_day, net },
        )?;
        let pushed: Result<_, _> = self.declarations.push(*declaration);
        pushed.unwrap();
        Ok(())
    }
}

ghost use Rattle.std.specs.Prelude.{◌≡◌, ◌↔◌, ◌<◌, ◌≤◌, ◌-◌, ◌^◌, [], true, false, filter, Ok, Err, IsTrue, IfOk, IfErr, OnOk, OnErr, IsErrOf};
ghost use Rattle.np_proxy.specs.Exports.{export_name, out_of, is_exported, released_name, added, sent, released, dropped, purged, is_of_other_instance, IsRefusal};
ghost use Rattle.np_proxy.specs.Named.{IsAt};
ghost use Rattle.np_proxy.specs.declared.error.ProxyError.TheVariants.{Unknown, TooMany};

use crate::export::Export;
use crate::named::{Named, find, get, put, take};
use crate::{ProxyError, Release};
use np_name_search::NumberedName;
use np_values::{Name, NoMemory, Side};
use std::alloc::Global;
use std::marker::Model;

/// The objects of one side that the other side may name, each with how many references to it are out.
/// The owner must keep an object alive while one is.
#[derive(Drop)]
pub struct Exports {
    side: Side,
    objects: Vec<Export>,
}

impl Model for Exports {
    ghost use Rattle.std.specs.Prelude.{◌≡◌, true};
    ghost use Rattle.np_proxy.specs.Named.{is_rising};
    ghost use Rattle.np_proxy.specs.Exports.{Exported, export_name};

    ghost Value = { Exported };

    ghost view = { λ e. record { side = e.side; objects = e.objects.items } };

    ghost invariant = { λ e. is_rising export_name e.objects.items ≡ true };
}

impl Exports {
    /// No object of the side is known to the other side. It takes no memory yet.
    pub fn new(alloc: Global, side: Side) -> Exports
        ensures value { result ≡ record { side = side; objects = [] } }
    {
        Exports {
            side,
            objects: Vec::new(alloc),
        }
    }

    /// How many references to the object are out; 0 where it isn't an export.
    pub fn out(&self, name: Name) -> u64
        ensures value { result ≡ out_of self.now name }
    {
        match get(self.objects.as_slice(), name) {
            Some(export) => export.out,
            None => 0,
        }
    }

    /// Makes the object an export, of which no reference is out yet.
    pub fn add(&mut self, name: Name) -> Result<(), NoMemory>
        requires absent { is_exported self.old name ≡ false }
        ensures ok { OnOk result (self.new ≡ added name self.old) }
        ensures err { OnErr result (self.new ≡ self.old) }
    {
        let export = Export {
            name: NumberedName::new(name),
            out: 0,
        };
        put(&mut self.objects, export)
    }

    /// A message takes one reference to the object to the other side.
    pub fn send(&mut self, name: Name)
        requires exported { is_exported self.old name ≡ true }
        requires fits { out_of self.old name < 2 ^ 64 - 1 }
        ensures value { self.new ≡ sent name self.old }
    {
        match find(self.objects.as_slice(), name) {
            Some(place) => {
                let export = &mut self.objects[place];
                export.out += 1;
            }
            None => {}
        }
    }

    /// The object is no export any more.
    pub fn drop_name(&mut self, name: Name)
        ensures value { self.new ≡ dropped name self.old }
        ensures gone { is_exported self.new name ≡ false }
    {
        take(&mut self.objects, name);
    }

    /// No object of the instance is an export any more.
    pub fn purge(&mut self, instance: u8)
        ensures value { self.new ≡ purged instance self.old }
    {
        remove_exports(&mut self.objects, instance);
    }

    /// Takes back the references that the other side releases, and tells whether none is out now.
    pub fn release(&mut self, instance_lives: bool, entry: &Release) -> Result<bool, ProxyError>
        // A dead instance has no exports, so a release that comes late for it changes nothing.
        ensures late { instance_lives ≡ false → (result ≡ Ok false) × (self.new ≡ self.old) }

        ensures taken { IfOk result (λ last. IsTrue instance_lives →
            self.new ≡ released (released_name self.old.side entry.now) entry.now.times self.old) }
        ensures last { IfOk result (λ last. IsTrue instance_lives →
            (IsTrue last ↔ (out_of self.new (released_name self.old.side entry.now) ≡ 0))) }

        // Each refusal, exactly where it comes, and what it leaves.
        ensures unknown { IsErrOf result (Unknown entry.now.instance entry.now.serial) ↔
            (IsTrue instance_lives × (out_of self.old (released_name self.old.side entry.now) ≡ 0)) }
        ensures too_many { IsErrOf result (TooMany entry.now.times (out_of self.old (released_name self.old.side entry.now))) ↔
            (IsTrue instance_lives × (0 < out_of self.old (released_name self.old.side entry.now))
            × (out_of self.old (released_name self.old.side entry.now) < entry.now.times)) }
        ensures no_other { IfErr result (λ e. IsRefusal self.old entry.now e) }
        ensures err { OnErr result (self.new ≡ self.old) }
    {
        if !instance_lives {
            return Ok(false);
        }
        let name = Name {
            side: self.side,
            instance: entry.instance,
            serial: entry.serial,
        };
        let (place, out) = self.find_out(name);
        if out == 0 {
            return Err(ProxyError::Unknown {
                instance: entry.instance,
                serial: entry.serial,
            });
        }
        if u64::from(entry.times) > out {
            return Err(ProxyError::TooMany {
                times: entry.times,
                out,
            });
        }
        self.take_back(place, name, u64::from(entry.times));
        Ok(u64::from(entry.times) == out)
    }

    // The place of the export, where references to it are out, and how many.
    fn find_out(&self, name: Name) -> (usize, u64)
        ensures out { result.1 ≡ out_of self.now name }
        ensures at { 0 < result.1 → IsAt export_name name self.now.objects result.0 }
    {
        match find(self.objects.as_slice(), name) {
            Some(place) => (place, self.objects[place].out),
            None => (self.objects.len(), 0),
        }
    }

    // So many references to the object at this place come back.
    fn take_back(&mut self, place: usize, name: Name, times: u64)
        requires at { IsAt export_name name self.old.objects place }
        requires out { times ≤ out_of self.old name }
        ensures value { self.new ≡ released name times self.old }
    {
        let export = &mut self.objects[place];
        export.out -= times;
    }
}

fn remove_exports(objects: &mut Vec<Export>, instance: u8)
    ensures value { objects.new.items ≡ filter (is_of_other_instance instance) objects.old.items }
{
    objects.retain(|export| export.name().instance != instance);
}

ghost use Rattle.std.specs.Prelude.{◌≡◌, ◌+◌, ◌-◌, ◌<◌, ◌^◌, ◌==◌, ◌&&◌, nat_lt, [], None, true, length, replicate, false, ℕ, IfOk, IfErr, OnOk, OnErr, if◌then◌else◌};
ghost use Rattle.std.specs.List.{list_all};
ghost use Rattle.np_values.specs.declared.name.Name.{Name};
ghost use Rattle.np_values.specs.Name.{is_same_side};
ghost use Rattle.np_proxy_release.specs.Release.{AreRising, AreTypedReleases};
ghost use Rattle.np_proxy.specs.Imports.{holders_of, count_in, first_full, accepted, held, unheld, cleared, names_held, purged_of, was_purged, release_name, gives_back, KeepsImports, IsCause};
ghost use Rattle.np_proxy.specs.Named.{is_rising, is_same, itself};
ghost use Rattle.np_proxy.specs.Counts.{LastGoes, SameCounts, GivesBack};
ghost use Rattle.np_proxy.specs.Sending.{HasCountedNames};

use crate::named::find;
use crate::pending::{add_release, drop_first, remove_releases};
use crate::proxies::{first_full, held_names, let_go, make_room, remove_proxies, take_up_all};
use crate::{Import, Incoming, ProxyError, Release};
use np_values::{Name, NameList, NoMemory, Side};
use std::alloc::Global;
use std::marker::Model;

/// The proxies of one side, each with how often its name came and how many references of this side it stands for,
/// and the releases that are to be sent.
#[derive(Drop)]
pub struct Imports {
    side: Side,
    proxies: Vec<Import>,
    releases: Vec<Release>,
    purged: [bool; 256],
}

impl Model for Imports {
    ghost use Rattle.std.specs.Vec.{vec_capacity};
    ghost use Rattle.np_proxy.specs.Imports.{Imported, HoldsImports};

    ghost Value = { Imported };

    ghost view = { λ i. record { side = i.side; proxies = i.proxies.items; releases = i.releases.items; purged = i.purged } };

    ghost invariant = { λ i. HoldsImports (record { side = i.side; proxies = i.proxies.items; releases = i.releases.items; purged = i.purged }) (vec_capacity i.releases) };
}

impl Imports {
    /// No name came to the side yet. It takes no memory.
    pub fn new(alloc: Global, side: Side) -> Imports
        ensures value { result ≡ record { side = side; proxies = []; releases = []; purged = replicate 256 false } }
        ensures unpurged { (number : ℕ) → was_purged result.purged number ≡ false }
    {
        Imports {
            side,
            proxies: Vec::new(alloc),
            releases: Vec::new(alloc),
            purged: [false; 256],
        }
    }

    /// Counts the names that came, one after another. Where they can't be counted they come back.
    pub fn accept(&mut self, refs: Incoming) -> Result<(), (ProxyError, Incoming)>
        requires side { refs.side ≡ self.old.side }
        requires holders { (x : Name) → holders_of self.old x + length refs.names < 2 ^ 64 }

        ensures ok { OnOk result (self.new ≡ accepted refs.names self.old) }
        ensures room { OnOk result (first_full self.old refs.names ≡ None) }

        ensures cause { IfErr result (λ e. IsCause e.0 (first_full self.old refs.names)) }
        ensures err { OnErr result (self.new ≡ self.old) }
        ensures refs { IfErr result (λ e. e.1 ≡ refs) }
    {
        match first_full(
            self.proxies.as_slice(),
            self.releases.as_slice(),
            &self.purged,
            refs.names(),
        ) {
            Some(name) => {
                let full = ProxyError::CountFull {
                    instance: name.instance,
                    serial: name.serial,
                };
                return Err((full, refs));
            }
            None => {}
        }
        match make_room(&mut self.proxies, &mut self.releases, refs.names().len()) {
            Ok(()) => {
                take_up_all(&mut self.proxies, &self.purged, refs.names());
                refs.discard();
                Ok(())
            }
            Err(NoMemory) => Err((ProxyError::NoMemory, refs)),
        }
    }

    /// One reference more of this side names the object.
    pub fn hold(&mut self, name: Name)
        requires held { 0 < holders_of self.old name }
        requires fits { holders_of self.old name < 2 ^ 64 - 1 }
        ensures value { self.new ≡ held name self.old }
    {
        match find(self.proxies.as_slice(), name) {
            Some(place) => {
                let proxy = &mut self.proxies[place];
                proxy.holders += 1;
            }
            None => {}
        }
    }

    /// One reference less of this side names the object. Where that was the last, all that came are to be given back.
    pub fn unhold(&mut self, name: Name)
        requires held { 0 < holders_of self.old name }
        ensures value { self.new ≡ unheld name self.old }
        ensures last { holders_of self.old name ≡ 1 → LastGoes name self.old self.new }
        ensures others { (x : Name) → is_same x name ≡ false → is_same_side x.side self.old.side ≡ false → SameCounts x self.old self.new }
    {
        match let_go(&mut self.proxies, name) {
            Some(received) => add_release(
                &mut self.releases,
                Release {
                    instance: name.instance,
                    serial: name.serial,
                    times: received,
                },
            ),
            None => {}
        }
    }

    /// The pending releases, in rising order. A message may carry them where all names that came are counted from 1.
    pub fn releases(&self) -> &[Release]
        ensures value { result.now ≡ self.now.releases }
        ensures rising { is_rising release_name self.now.releases ≡ true }
        ensures counted { list_all gives_back self.now.releases ≡ true }
        ensures typed { AreTypedReleases self.now.releases }
        ensures message { HasCountedNames self.now → AreRising self.now.releases }
        ensures keeps { (capacity : ℕ) × KeepsImports self.now capacity }
    {
        self.releases.as_slice()
    }

    /// A message carries the first 1,024 pending releases, or all where there are fewer.
    pub fn clear_releases(&mut self)
        ensures value { self.new ≡ cleared self.old }
        ensures carried { (x : Name) → GivesBack x self.old self.new }
    {
        drop_first(&mut self.releases);
    }

    /// The instance died on this side: its proxies and its pending releases are gone for good. The names that were held are returned.
    pub fn purge(&mut self, instance: u8) -> Result<NameList, NoMemory>
        ensures names { IfOk result (λ names. names ≡ names_held instance self.old) }
        ensures rising { IfOk result (λ names. is_rising itself names ≡ true) }
        ensures held { IfOk result (λ names. (x : Name) → count_in x names ≡ (if x.instance == instance && nat_lt 0 (holders_of self.old x) then 1 else 0)) }
        ensures ok { OnOk result (self.new ≡ purged_of instance self.old) }
        ensures purged { OnOk result (was_purged self.new.purged instance ≡ true) }
        ensures err { OnErr result (self.new ≡ self.old) }
    {
        let alloc = *self.proxies.allocator();
        let names = held_names(alloc, self.proxies.as_slice(), instance)?;
        remove_proxies(&mut self.proxies, instance);
        remove_releases(&mut self.releases, instance);
        self.purged[usize::from(instance)] = true;
        Ok(names)
    }
}

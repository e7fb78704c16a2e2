ghost use Rattle.std.specs.Prelude.{◌≡◌, ◌≢◌, ◌↔◌, ◌<◌, ◌⊎◌, ◌+◌, ◌++◌, [], ◌∷◌, length, IfSome, None, true};
ghost use Rattle.np_values.specs.declared.error.NpError.TheVariants.{NoError, InvalidInstance};
ghost use Rattle.np_life.specs.declared.phase.Phase.TheVariants.{Absent, Live, Destroying, Dead};
ghost use Rattle.np_life.specs.Instances.{phase_of, with_phase, follows, NeverGoBack};

use crate::Phase;
use np_values::NpError;
use std::marker::Model;

/// The most instances that are begun in one run. (This project's own limit.)
const MOST: usize = 255;

/// The instances that were begun, seen as the list of their phases: the instance with number n, from 1, is the n-th.
/// It takes no memory. (npfunctions.h, NPP_New and NPP_Destroy.)
#[derive(Drop)]
pub struct Instances {
    phases: [Phase; MOST],
    begun: usize,
}

impl Model for Instances {
    ghost use Rattle.std.specs.Prelude.{List, ◌≤◌, ◌≡◌, take, true};
    ghost use Rattle.np_life.specs.declared.phase.Phase.{Phase};
    ghost use Rattle.np_life.specs.Instances.{are_begun};

    ghost Value = { List Phase };

    ghost view = { λ i. take i.begun i.phases };

    ghost invariant = { λ i. (i.begun ≤ 255) × (are_begun (take i.begun i.phases) ≡ true) };
}

impl Instances {
    /// No instance was begun.
    pub fn new() -> Instances
        ensures value { result ≡ [] }
    {
        Instances {
            phases: [Phase::Absent; MOST],
            begun: 0,
        }
    }

    /// Begins the instance with the least number above every one begun; it is live. `None` where all numbers were used:
    /// a number isn't used twice. (npfunctions.h, NPP_New.)
    pub fn begin(&mut self) -> Option<u8>
        ensures number { IfSome result (λ number. number ≡ length self.old + 1) }
        ensures live { IfSome result (λ number. self.new ≡ self.old ++ Live ∷ []) }

        ensures full { result ≡ None ↔ length self.old ≡ 255 }
        ensures none { result ≡ None → self.new ≡ self.old }

        ensures order { NeverGoBack self.old self.new }
    {
        if self.begun == MOST {
            return None;
        }
        self.phases[self.begun] = Phase::Live;
        self.begun += 1;
        Some(self.begun as u8)
    }

    /// The phase of the instance with this number.
    pub fn phase(&self, instance: u8) -> Phase
        ensures value { result ≡ phase_of self.now instance }
        ensures absent { result ≡ Absent ↔ ((instance ≡ 0) ⊎ (length self.now < instance)) }
    {
        if instance == 0 || usize::from(instance) > self.begun {
            return Phase::Absent;
        }
        self.phases[usize::from(instance) - 1]
    }

    /// The instance is to be destroyed. `InvalidInstance` where it isn't live. (npfunctions.h, NPP_Destroy.)
    pub fn destroy(&mut self, instance: u8) -> NpError
        ensures ok { result ≡ NoError ↔ (phase_of self.old instance ≡ Live) }
        ensures destroying { result ≡ NoError → self.new ≡ with_phase self.old instance Destroying }

        ensures invalid { result ≡ InvalidInstance ↔ (phase_of self.old instance ≢ Live) }
        ensures same { result ≡ InvalidInstance → self.new ≡ self.old }

        ensures order { NeverGoBack self.old self.new }
    {
        if self.phase(instance) != Phase::Live {
            return NpError::InvalidInstance;
        }
        self.set(instance, Phase::Destroying);
        NpError::NoError
    }

    /// The instance is dead from now on. `InvalidInstance` where it was never begun, or is dead already.
    /// (npfunctions.h, NPP_Destroy, and an NPP_New that fails.)
    pub fn dead(&mut self, instance: u8) -> NpError
        ensures ok { result ≡ NoError ↔ ((phase_of self.old instance ≡ Live) ⊎ (phase_of self.old instance ≡ Destroying)) }
        ensures dead { result ≡ NoError → self.new ≡ with_phase self.old instance Dead }

        ensures invalid { result ≡ InvalidInstance ↔ ((phase_of self.old instance ≡ Absent) ⊎ (phase_of self.old instance ≡ Dead)) }
        ensures same { result ≡ InvalidInstance → self.new ≡ self.old }

        ensures order { NeverGoBack self.old self.new }
    {
        match self.phase(instance) {
            Phase::Absent | Phase::Dead => NpError::InvalidInstance,
            Phase::Live | Phase::Destroying => {
                self.set(instance, Phase::Dead);
                NpError::NoError
            }
        }
    }

    // Gives an instance that was begun a phase that may follow on its own.
    fn set(&mut self, instance: u8, phase: Phase)
        requires begun { phase_of self.old instance ≢ Absent }
        requires follows { follows (phase_of self.old instance) phase ≡ true }
        ensures value { self.new ≡ with_phase self.old instance phase }
        ensures order { NeverGoBack self.old self.new }
    {
        self.phases[usize::from(instance) - 1] = phase;
    }
}

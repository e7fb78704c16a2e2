//! The builder of a script's value.

use crate::state::{Building, Unfinished};
use np_script_grammar::{
    Classes, Commands, Fields, Handlers, Page, Place, Plugin, Resources, Tasks,
};
use np_values::NoMemory;
use std::alloc::Global;
use std::marker::Model;

/// What the lines of a script say so far. It takes lines that are in order.
#[derive(Drop)]
pub struct Builder {
    pub(crate) building: Building,
}

impl Model for Builder {
    ghost use Rattle.np_script_builder.specs.declared.state.Building.{Building};

    ghost Value = { Building };

    ghost view = { λ b. b.building };
}

impl Builder {
    ghost use Rattle.std.specs.Prelude.{◌≡◌, OnOk, Some};
    ghost use Rattle.np_script_builder.specs.declared.state.Building.{Building};
    ghost use Rattle.np_script_builder.specs.Building.{at_start, built_after, page_in, plugin_in};

    /// A builder before the first line. It takes no memory yet.
    pub fn new(alloc: Global) -> Builder
        ensures value { result ≡ at_start }
    {
        Builder {
            building: Building {
                major: 0,
                minor: 0,
                classes: Classes::new(alloc),
                resources: Resources::new(alloc),
                handlers: Handlers::new(alloc),
                tasks: Tasks::new(alloc),
                commands: Commands::new(alloc),
                unfinished: Unfinished::Nothing,
            },
        }
    }

    /// Takes the next line, which stands at this place. After an error the builder is of no further use.
    pub fn take(
        &mut self,
        alloc: Global,
        place: Place,
        word: &[u8],
        fields: Fields,
    ) -> Result<(), NoMemory>
        requires says { (b : Building) × (built_after place self.old (word.now, fields) ≡ Some b) }
        ensures ok { OnOk result (built_after place self.old (word.now, fields) ≡ Some self.new) }
    {
        match self.building.line(alloc, place, word, fields)? {
            Some(()) => Ok(()),
            None => unreachable!(),
        }
    }

    /// The page that the lines said.
    pub fn page(self) -> Page
        ensures value { result ≡ page_in self }
    {
        let building = self.building;
        Page {
            major: building.major,
            minor: building.minor,
            classes: building.classes,
            resources: building.resources,
            commands: building.commands,
        }
    }

    /// The plug-in that the lines said.
    pub fn plugin(self) -> Plugin
        ensures value { result ≡ plugin_in self }
    {
        let building = self.building;
        Plugin {
            major: building.major,
            minor: building.minor,
            classes: building.classes,
            handlers: building.handlers,
            tasks: building.tasks,
        }
    }
}

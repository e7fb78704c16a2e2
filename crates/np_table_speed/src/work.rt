//! What is measured.

ghost use Rattle.std.specs.Prelude.{◌≡◌, ◌⊎◌, All, IfOk};
ghost use Rattle.np_table_speed.specs.Work.{IsIdle};

use np_objects::{Store, live_objects_are_kept, same_names_are_equal};
use np_values::{Name, NoMemory};
use std::alloc::Global;

/// Makes 1,024 objects of four instances in turn, and gives their names in that order.
pub fn fill(alloc: Global, store: &mut Store) -> Result<Vec<Name>, NoMemory>
    ensures idle { IfOk result (λ names. All (λ x. IsIdle x store.new) names.items) }
{
    let mut names = Vec::new(alloc);
    for number in 0..1024u32 {
        add(store, (number % 4) as u8 + 1, &mut names)?;
    }
    Ok(names)
}

/// Makes an object of the instance, where there is room for it.
fn add(store: &mut Store, instance: u8, names: &mut Vec<Name>) -> Result<(), NoMemory>
    requires idle { All (λ x. IsIdle x store.old) names.old.items }
    ensures idle { All (λ x. IsIdle x store.new) names.new.items }
{
    live_objects_are_kept();
    if store.last_serial(instance) > 1024 {
        return Ok(());
    }
    match store.create(instance, 0)? {
        Some(name) => {
            names.push(name)?;
            Ok(())
        }
        None => Ok(()),
    }
}

/// Looks each object up, so many times over; 3 where one isn't found.
pub fn look_each(store: &Store, names: &[Name], times: u32) -> u8
    requires idle { All (λ x. IsIdle x store.now) names.now }
    ensures found { result ≡ 0 }
{
    for _ in 0..times {
        for name in names {
            if store.class_of(*name).is_none() {
                return 3;
            }
        }
    }
    0
}

/// Holds each object once and lets it go, so many times over.
pub fn hold_each(store: &mut Store, names: &[Name], times: u32) -> u8
    requires idle { All (λ x. IsIdle x store.old) names.now }
    ensures status { result ≡ 0 }
{
    for turn in 0..times {
        hold_once(store, names);
    }
    0
}

fn hold_once(store: &mut Store, names: &[Name])
    requires idle { All (λ x. IsIdle x store.old) names.now }
    ensures idle { All (λ x. IsIdle x store.new) names.now }
{
    live_objects_are_kept();
    same_names_are_equal();
    for name in names {
        store.hold(*name);
        store.unhold(*name);
    }
}

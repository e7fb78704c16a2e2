//! Where a call of the other side stands among those of one side.
ghost use Rattle.std.specs.Prelude.{◌≡◌, true, false};

use np_calls::{Calls, Place};
use np_message::Depth;
use np_values::Side;

fn level(level: u8) -> Depth
    ensures value { result ≡ record { level = level; task = false } }
{
    Depth { level, task: false }
}

fn task(level: u8) -> Depth
    ensures value { result ≡ record { level = level; task = true } }
{
    Depth { level, task: true }
}

#[test]
fn calls_of_the_page(rt: HostRuntime) {
    let mut calls = Calls::new(Side::Page);
    calls.begin(level(1));
    assert_eq!(rt; calls.place(&level(2)), Place::Nested);
    assert_eq!(rt; calls.place(&level(1)), Place::Bad);
    assert_eq!(rt; calls.place(&task(64)), Place::Crossed);
    assert_eq!(rt; calls.answered(&level(3)), Some(1));
    assert_eq!(rt; calls.answered(&level(1)), None);
    assert_eq!(rt; calls.answered(&level(1)), Some(0));
}

#[test]
fn calls_of_the_plugin(rt: HostRuntime) {
    let mut calls = Calls::new(Side::Plug);
    calls.begin(task(5));
    assert_eq!(rt; calls.place(&level(1)), Place::Crossed);
    assert_eq!(rt; calls.place(&task(6)), Place::Bad);
    calls.begin(level(2));
    assert_eq!(rt; calls.place(&level(2)), Place::Bad);
    assert_eq!(rt; calls.place(&level(3)), Place::Nested);
    assert_eq!(rt; calls.answered(&level(2)), None);
    assert_eq!(rt; calls.answered(&task(5)), None);
}

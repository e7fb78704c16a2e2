//! What is served of a script, and the level that it needs.
use np_model::Command;
use np_model_scripts::{
    page_level, plugin_level, serve_page, serve_plugin, served_page, served_plugin,
};
use np_script::{parse_page, parse_plugin};
use std::test::Fail;

const PAGE: &[u8] = b"page 0 27\ndo\ncreate \"t/x\" full\nturn\n";

const PLUGIN: &[u8] = b"plugin 1 2\nhandler new\nreturn -7\nend\n";

#[test]
fn a_page_of_create_and_turn_is_served(rt: HostRuntime) -> Result<(), Fail> {
    let page = serve_page(rt.alloc(), PAGE)?;
    assert_eq!(rt; (page.major, page.minor), (0, 27));
    assert!(rt;
        matches!(
            page.commands.as_slice(),
            [Command::Create { mime: _, mode: 2 }, Command::Turn]
        )
    );
    Ok(())
}

#[test]
fn a_page_that_was_read_is_served(rt: HostRuntime) -> Result<(), Fail> {
    let alloc = rt.alloc();
    let script = parse_page(alloc, PAGE)?;
    let served = served_page(alloc, script.page())?;
    assert!(rt; served.is_some());
    Ok(())
}

#[test]
fn a_plugin_with_a_handler_is_served(rt: HostRuntime) -> Result<(), Fail> {
    let plugin = serve_plugin(rt.alloc(), PLUGIN)?;
    assert_eq!(rt;
        (plugin.major, plugin.minor, plugin.new_handler),
        (1, 2, Some(-7))
    );
    Ok(())
}

#[test]
fn a_plugin_that_was_read_is_served(rt: HostRuntime) -> Result<(), Fail> {
    let script = parse_plugin(rt.alloc(), PLUGIN)?;
    assert!(rt; served_plugin(script.plugin()).is_some());
    Ok(())
}

#[test]
fn attributes_need_level_5(rt: HostRuntime) -> Result<(), Fail> {
    let script = parse_page(
        rt.alloc(),
        b"page 0 27\ndo\ncreate \"a/b\" embed \"n\" \"v\"\n",
    )?;
    assert_eq!(rt; page_level(script.page()), 5);
    Ok(())
}

#[test]
fn a_task_needs_level_10(rt: HostRuntime) -> Result<(), Fail> {
    let script = parse_plugin(rt.alloc(), b"plugin 0 27\ntask \"t\"\nend\n")?;
    assert_eq!(rt; plugin_level(script.plugin()), 10);
    Ok(())
}

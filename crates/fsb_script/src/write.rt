ghost use Rattle.std.specs.Prelude.{◌≡◌, ◌+◌, ◌++◌, OnOk, IfOk};
ghost use Rattle.fsb_script.specs.Text.{settings_text, accesses_text, item_text, items_text, script_text, scripts_text, hazards_text, profile_text, bridge_text, bench_text};
ghost use Rattle.fsb_script.specs.View.{plan_view};

use crate::line::{
    access_line, agent_line, hazard_line, head_lines, idle_line, setting_line, window_line,
};
use crate::plan::{Plan, Window};
use fsb_access::{Access, Item, Script, Setting};
use fsb_hazard::HazardLine;
use fsb_io::Memory;
use std::alloc::Global;

/// The canonical text of a plan.
#[tactic(auto, unfolding(crate::specs::Text::bench_text))]
pub fn write_bench(alloc: Global, plan: &Plan) -> Result<Vec<u8>, Memory>
    ensures { IfOk result (λ text. text.items ≡ bench_text (plan_view plan.now)) }
{
    let scripts = plan.scripts.as_slice();
    let mut text = Vec::new(alloc);
    let head = head_lines(scripts.len() as u64, plan.clocks, plan.cache, plan.ahead);
    text.extend_from_slice(head.as_slice())?;
    put_profile(&mut text, plan.profile)?;
    put_bridge(&mut text, &plan.bridge)?;
    put_settings(&mut text, plan.mem.as_slice())?;
    put_scripts(&mut text, scripts)?;
    put_hazards(&mut text, plan.hazards.as_slice())?;
    Ok(text)
}

fn put_profile(text: &mut Vec<u8>, profile: u8) -> Result<(), Memory>
    ensures { OnOk result (text.new.items ≡ text.old.items ++ profile_text profile) }
{
    if profile == 2 {
        text.extend_from_slice(b"profile 2\n")?;
    }
    Ok(())
}

fn put_bridge(text: &mut Vec<u8>, bridge: &Option<Window>) -> Result<(), Memory>
    ensures { OnOk result (text.new.items ≡ text.old.items ++ bridge_text bridge.now) }
{
    if let Some(window) = bridge {
        text.extend_from_slice(window_line(window).as_slice())?;
    }
    Ok(())
}

fn put_settings(text: &mut Vec<u8>, settings: &[Setting]) -> Result<(), Memory>
    ensures { OnOk result (text.new.items ≡ text.old.items ++ settings_text settings.now) }
{
    for setting in settings {
        text.extend_from_slice(setting_line(setting).as_slice())?;
    }
    Ok(())
}

fn put_accesses(text: &mut Vec<u8>, accesses: &[Access]) -> Result<(), Memory>
    ensures { OnOk result (text.new.items ≡ text.old.items ++ accesses_text accesses.now) }
{
    for access in accesses {
        text.extend_from_slice(access_line(access).as_slice())?;
    }
    Ok(())
}

#[tactic(auto, unfolding(crate::specs::Text::item_text))]
fn put_item(text: &mut Vec<u8>, item: &Item) -> Result<(), Memory>
    ensures { OnOk result (text.new.items ≡ text.old.items ++ item_text item.now) }
{
    match item {
        Item::One(access) => text.extend_from_slice(access_line(access).as_slice())?,
        Item::Locked(group) => {
            text.extend_from_slice(b"lock\n")?;
            put_accesses(text, group.as_slice())?;
            text.extend_from_slice(b"unlock\n")?;
        }
        Item::Idle(clocks) => text.extend_from_slice(idle_line(*clocks).as_slice())?,
    }
    Ok(())
}

fn put_items(text: &mut Vec<u8>, items: &[Item]) -> Result<(), Memory>
    ensures { OnOk result (text.new.items ≡ text.old.items ++ items_text items.now) }
{
    for item in items {
        put_item(text, item)?;
    }
    Ok(())
}

#[tactic(auto, unfolding(crate::specs::Text::script_text))]
fn put_script(text: &mut Vec<u8>, number: u64, script: &Script) -> Result<(), Memory>
    ensures { OnOk result (text.new.items ≡ text.old.items ++ script_text number script.now) }
{
    text.extend_from_slice(agent_line(number).as_slice())?;
    put_items(text, script.as_slice())?;
    text.extend_from_slice(b"end\n")?;
    Ok(())
}

fn put_scripts(text: &mut Vec<u8>, scripts: &[Script]) -> Result<(), Memory>
    ensures { OnOk result (text.new.items ≡ text.old.items ++ scripts_text 0 scripts.now) }
{
    for (number, script) in scripts.iter().enumerate() {
        put_script(text, number as u64, script)?;
    }
    Ok(())
}

fn put_hazards(text: &mut Vec<u8>, hazards: &[HazardLine]) -> Result<(), Memory>
    ensures { OnOk result (text.new.items ≡ text.old.items ++ hazards_text hazards.now) }
{
    for hazard in hazards {
        text.extend_from_slice(hazard_line(hazard).as_slice())?;
    }
    Ok(())
}

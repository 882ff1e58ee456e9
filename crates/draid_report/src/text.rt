ghost use Rattle.std.specs.Prelude.{◌≡◌, ◌++◌, IfOk, OnOk, string_bytes};
ghost use Rattle.draid_report.specs.Text.{arm_line, arm_text, kind_text, metaslab_line, metaslabs_text, pass_text, pool_line, presence_of, slot_lines, slots_text, text_of};

use crate::view::{ArmView, MetaslabView, PassView, View};
use draid_names::{ArmKind, NoMemory, PassKind};
use std::alloc::{AllocError, Global};
use std::fmt::Write;

/// The text of `status`.
pub fn status_text(alloc: Global, view: &View) -> Result<Vec<u8>, NoMemory>
    ensures { IfOk result (λ text. text.items ≡ text_of view.now) }
{
    let text = all_lines(alloc, view)?;
    Ok(text.into_bytes())
}

#[tactic(auto, unfolding(crate::specs::Text::text_of))]
fn all_lines(alloc: Global, view: &View) -> Result<String, AllocError>
    ensures { IfOk result (λ text. string_bytes text ≡ text_of view.now) }
{
    let mut text = first_line(alloc, view)?;
    add_slots(&mut text, alloc, &view.slots)?;
    add_metaslabs(&mut text, alloc, &view.metaslabs)?;
    text.push_str("end\n")?;
    Ok(text)
}

fn first_line(alloc: Global, view: &View) -> Result<String, AllocError>
    ensures { IfOk result (λ text. string_bytes text ≡ pool_line view.now) }
{
    let name = view.name.as_str();
    let group = view.group;
    let open = view.open_group;
    let objects = view.objects;
    format!(in alloc; "pool {name} group={group} open={open} objects={objects}\n")
}

fn add_slots(text: &mut String, alloc: Global, slots: &[Vec<ArmView>]) -> Result<(), AllocError>
    ensures { OnOk result (string_bytes text.new ≡ string_bytes text.old ++ slots_text slots.now) }
{
    for (slot, arms) in slots.iter().enumerate() {
        add_arms(text, alloc, slot, arms)?;
    }
    Ok(())
}

fn add_arms(
    text: &mut String,
    alloc: Global,
    slot: usize,
    arms: &[ArmView],
) -> Result<(), AllocError>
    ensures { OnOk result (string_bytes text.new ≡ string_bytes text.old ++ slot_lines slot arms.now) }
{
    for arm in arms {
        add_arm(text, alloc, slot, arm)?;
    }
    Ok(())
}

fn add_arm(text: &mut String, alloc: Global, slot: usize, view: &ArmView) -> Result<(), AllocError>
    ensures { OnOk result (string_bytes text.new ≡ string_bytes text.old ++ arm_line slot view.now) }
{
    let arm = arm_words(alloc, view)?;
    let logged = view.logged;
    writeln!(text, "slot {slot} {arm} logged={logged}")
}

/// A leaf by its number, a spare by its name.
fn arm_words(alloc: Global, view: &ArmView) -> Result<String, AllocError>
    ensures { IfOk result (λ text. string_bytes text ≡ arm_text view.now.arm.kind view.now) }
{
    match view.arm.kind {
        ArmKind::Leaf => {
            let number = view.arm.number;
            let presence = presence(view.arm.offline);
            format!(in alloc; "leaf {number} {presence}")
        }
        ArmKind::Spare => {
            let name = view.spare_name.as_str();
            format!(in alloc; "spare {name} online")
        }
    }
}

fn presence(offline: bool) -> &'static str
    ensures { result.now ≡ presence_of offline }
{
    if offline { "offline" } else { "online" }
}

fn add_metaslabs(
    text: &mut String,
    alloc: Global,
    metaslabs: &[MetaslabView],
) -> Result<(), AllocError>
    ensures { OnOk result (string_bytes text.new ≡ string_bytes text.old ++ metaslabs_text metaslabs.now) }
{
    for (metaslab, view) in metaslabs.iter().enumerate() {
        add_metaslab(text, alloc, metaslab, *view)?;
    }
    Ok(())
}

fn add_metaslab(
    text: &mut String,
    alloc: Global,
    metaslab: usize,
    view: MetaslabView,
) -> Result<(), AllocError>
    ensures { OnOk result (string_bytes text.new ≡ string_bytes text.old ++ metaslab_line metaslab view) }
{
    let pass = pass_words(alloc, view.pass)?;
    let free = view.free;
    let blocks = view.blocks;
    writeln!(
        text,
        "metaslab {metaslab} free={free} blocks={blocks} {pass}"
    )
}

fn pass_words(alloc: Global, pass: Option<PassView>) -> Result<String, AllocError>
    ensures { IfOk result (λ text. string_bytes text ≡ pass_text pass) }
{
    match pass {
        None => String::from_str(alloc, "none"),
        Some(pass) => {
            let kind = kind_word(pass.kind);
            let number = pass.number;
            let at = pass.at;
            let errors = pass.errors;
            format!(in alloc; "{kind} {number} at={at} errors={errors}")
        }
    }
}

/// The word of a pass of this kind.
pub fn kind_word(kind: PassKind) -> &'static str
    ensures { result.now ≡ kind_text kind }
{
    match kind {
        PassKind::Rebuild => "rebuild",
        PassKind::Heal => "scrub",
    }
}

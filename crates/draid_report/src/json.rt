ghost use Rattle.std.specs.Prelude.{◌≡◌, IfOk, codes, map};
ghost use Rattle.std.specs.List.{enumerate_from};
ghost use Rattle.serde_json.specs.Data.{array};
ghost use Rattle.serde_json.specs.View.{items_of, view};
ghost use Rattle.draid_report.specs.Tree.{arm_kind_text, arm_tree, json_of, metaslab_tree, metaslabs_tree, pass_tree, slot_tree, slots_tree, tree_of};

use crate::text::kind_word;
use crate::view::{ArmView, MetaslabView, PassView, View};
use draid_names::{ArmKind, NoMemory};
use serde_json::{Value, json};
use std::alloc::{AllocError, Global};

/// The text of `status json`.
pub fn status_json(alloc: Global, view: &View) -> Result<Vec<u8>, NoMemory>
    ensures { IfOk result (λ text. text.items ≡ json_of view.now) }
{
    let tree = pool_value(alloc, view)?;
    let mut text = tree.to_vec(alloc)?;
    text.push(b'\n')?;
    Ok(text)
}

#[tactic(auto, unfolding(crate::specs::Tree::tree_of))]
fn pool_value(alloc: Global, pool: &View) -> Result<Value, AllocError>
    ensures { IfOk result (λ value. view value ≡ tree_of pool.now) }
{
    json!(in alloc; {
        "name": &pool.name,
        "group": pool.group,
        "open": pool.open_group,
        "objects": pool.objects,
        "slots": slot_values(alloc, &pool.slots)?,
        "metaslabs": metaslab_values(alloc, &pool.metaslabs)?
    })
}

fn slot_values(alloc: Global, slots: &[Vec<ArmView>]) -> Result<Value, AllocError>
    ensures { IfOk result (λ value. view value ≡ slots_tree slots.now) }
{
    let mut values = Vec::new(alloc);
    for arms in slots {
        values.push(arm_values(alloc, arms)?)?;
    }
    Ok(Value::Array(values))
}

fn arm_values(alloc: Global, arms: &[ArmView]) -> Result<Value, AllocError>
    ensures { IfOk result (λ value. view value ≡ array (items_of (map arm_tree arms.now))) }
{
    let mut values = Vec::new(alloc);
    for arm in arms {
        values.push(arm_value(alloc, arm)?)?;
    }
    Ok(Value::Array(values))
}

fn arm_value(alloc: Global, arm: &ArmView) -> Result<Value, AllocError>
    ensures { IfOk result (λ value. view value ≡ arm_tree arm.now) }
{
    json!(in alloc; {
        "kind": arm_kind_word(arm.arm.kind),
        "number": arm.arm.number,
        "offline": arm.arm.offline,
        "logged": arm.logged
    })
}

fn arm_kind_word(kind: ArmKind) -> &'static str
    ensures { result.now ≡ arm_kind_text kind }
{
    match kind {
        ArmKind::Leaf => "leaf",
        ArmKind::Spare => "spare",
    }
}

fn metaslab_values(alloc: Global, metaslabs: &[MetaslabView]) -> Result<Value, AllocError>
    ensures { IfOk result (λ value. view value ≡ metaslabs_tree metaslabs.now) }
{
    let mut values = Vec::new(alloc);
    for (number, metaslab) in metaslabs.iter().enumerate() {
        values.push(metaslab_value(alloc, number, *metaslab)?)?;
    }
    Ok(Value::Array(values))
}

fn metaslab_value(alloc: Global, number: usize, metaslab: MetaslabView) -> Result<Value, AllocError>
    ensures { IfOk result (λ value. view value ≡ metaslab_tree number metaslab) }
{
    json!(in alloc; {
        "number": number,
        "free": metaslab.free,
        "blocks": metaslab.blocks,
        "pass": pass_value(alloc, metaslab.pass)?
    })
}

fn pass_value(alloc: Global, pass: Option<PassView>) -> Result<Value, AllocError>
    ensures { IfOk result (λ value. view value ≡ pass_tree pass) }
{
    match pass {
        None => Ok(Value::Null),
        Some(pass) => json!(in alloc; {
            "number": pass.number,
            "kind": kind_word(pass.kind),
            "at": pass.at,
            "errors": pass.errors
        }),
    }
}

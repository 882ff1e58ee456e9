ghost use Rattle.std.specs.Prelude.{◌≡◌, ◌++◌, IfOk, codes, string_bytes};
ghost use Rattle.draid_script.specs.Name.{arm_of};
ghost use Rattle.draid_reply.specs.Reply.{contents_of, create_refused_of, detach_refused_of, detach_stopped_of, detached_of, write_fault_of, fill_refused_of, others_of, pass_there_of, pause_of, rebalanced_of, rebuilt_of, said_of, scrubbed_of, slot_fault_of, slot_refused_of, spec_fault_of, sum_refused_of, summed_of, text_of};
ghost use Rattle.draid_reply.specs.declared.reply.Reply.TheVariants.{NoSpace, Unreadable};
ghost use Rattle.std.specs.Fmt.{decimal};

use draid_names::{ObjectFault, SlotFault, WriteFault};
use draid_script::{ArmArgument, CommandName};
use draid_spec::SpecFault;
use std::alloc::{AllocError, Global};

/// The first word of a command, and what is said of it.
pub fn name_said(alloc: Global, command: CommandName, words: &str) -> Result<String, AllocError>
    ensures { IfOk result (λ text. string_bytes text ≡ said_of command (words.now ++ codes "\n")) }
{
    let name = command.text();
    format!(in alloc; "{name}{words}\n")
}

/// A number between other words.
pub fn numbered(alloc: Global, before: &str, number: u64, after: &str) -> Result<String, AllocError>
    ensures { IfOk result (λ text. string_bytes text ≡ before.now ++ (decimal number ++ after.now)) }
{
    format!(in alloc; "{before}{number}{after}")
}

/// Two numbers between other words.
pub fn twice_numbered(
    alloc: Global,
    before: &str,
    number: u64,
    between: &str,
    number_2: u64,
    after: &str,
) -> Result<String, AllocError>
    ensures { IfOk result (λ text. string_bytes text ≡ before.now ++ (decimal number ++ (between.now ++ (decimal number_2 ++ after.now)))) }
{
    format!(in alloc; "{before}{number}{between}{number_2}{after}")
}

pub fn created(alloc: Global, name: &str, stripes: u64) -> Result<String, AllocError>
    ensures { IfOk result (λ text. string_bytes text ≡ codes "create " ++ (name.now ++ (codes " stripes=" ++ (decimal stripes ++ codes "\n")))) }
{
    format!(in alloc; "create {name} stripes={stripes}\n")
}

pub fn imported(alloc: Global, name: &str, group: u64, objects: u64) -> Result<String, AllocError>
    ensures { IfOk result (λ text. string_bytes text ≡ codes "import " ++ (name.now ++ (codes " group=" ++ (decimal group ++ (codes " objects=" ++ (decimal objects ++ codes "\n")))))) }
{
    format!(in alloc; "import {name} group={group} objects={objects}\n")
}

pub fn spared(alloc: Global, slot: u32, name: &str) -> Result<String, AllocError>
    ensures { IfOk result (λ text. string_bytes text ≡ codes "spare " ++ (decimal slot ++ (codes " " ++ (name.now ++ codes " ok\n")))) }
{
    format!(in alloc; "spare {slot} {name} ok\n")
}

/// No metaslab has room for the block of a `write`.
#[tactic(auto, unfolding(crate::specs::Reply::text_of))]
pub fn no_space(
    alloc: Global,
    object: u64,
    run: u64,
    disabled: u32,
    full: u32,
    worn: u32,
) -> Result<String, AllocError>
    ensures { IfOk result (λ text. string_bytes text ≡ text_of (NoSpace object run disabled full worn)) }
{
    format!(in alloc;
        "write {object} no space run={run} disabled={disabled} full={full} worn={worn}\n"
    )
}

/// No set of columns restores the object of a `read`.
#[tactic(auto, unfolding(crate::specs::Reply::text_of))]
pub fn unreadable(alloc: Global, object: u64, absent: u32, tried: u64) -> Result<String, AllocError>
    ensures { IfOk result (λ text. string_bytes text ≡ text_of (Unreadable object absent tried)) }
{
    format!(in alloc; "read {object} unreadable absent={absent} tried={tried}\n")
}

/// A metaslab has a pass that the command may not find.
pub fn pass_there(
    alloc: Global,
    command: CommandName,
    metaslab: u32,
    number: u64,
) -> Result<String, AllocError>
    ensures { IfOk result (λ text. string_bytes text ≡ pass_there_of command metaslab number) }
{
    let name = command.text();
    format!(in alloc; "{name} refused 6 metaslab={metaslab} number={number}\n")
}

pub fn create_refused(alloc: Global, why: SpecFault) -> Result<String, AllocError>
    ensures { IfOk result (λ text. string_bytes text ≡ create_refused_of why) }
{
    let why = spec_fault(alloc, why)?;
    format!(in alloc; "create refused {why}\n")
}

/// The number of a refusal, and its values.
fn spec_fault(alloc: Global, why: SpecFault) -> Result<String, AllocError>
    ensures { IfOk result (λ text. string_bytes text ≡ spec_fault_of why) }
{
    match why {
        SpecFault::NotDraid => String::from_str(alloc, "1"),
        SpecFault::Parity => String::from_str(alloc, "2"),
        SpecFault::Number { at } => format!(in alloc; "3 at={at}"),
        SpecFault::Repeated { letter } => {
            let letter = char::from(letter);
            format!(in alloc; "4 letter={letter}")
        }
        SpecFault::Children { said, given } => format!(in alloc; "5 said={said} given={given}"),
        SpecFault::Width { need, have } => format!(in alloc; "6 need={need} have={have}"),
        SpecFault::Limit { which, value } => {
            let which = char::from(which);
            format!(in alloc; "7 which={which} value={value}")
        }
    }
}

pub fn slot_refused(
    alloc: Global,
    command: CommandName,
    slot: u32,
    why: SlotFault,
) -> Result<String, AllocError>
    ensures { IfOk result (λ text. string_bytes text ≡ slot_refused_of command slot why) }
{
    let name = command.text();
    let why = slot_fault(alloc, why)?;
    format!(in alloc; "{name} {slot} refused {why}\n")
}

/// The number of a refusal, and its values.
fn slot_fault(alloc: Global, why: SlotFault) -> Result<String, AllocError>
    ensures { IfOk result (λ text. string_bytes text ≡ slot_fault_of why) }
{
    match why {
        SlotFault::NoSuch => String::from_str(alloc, "1"),
        SlotFault::SpareBusy { by } => format!(in alloc; "2 by={by}"),
        SlotFault::LogNotEmpty { groups } => format!(in alloc; "4 groups={groups}"),
        SlotFault::LastArm => String::from_str(alloc, "5"),
        SlotFault::PassRunning { metaslab, number } => {
            format!(in alloc; "6 metaslab={metaslab} number={number}")
        }
        SlotFault::TooSmall { need, have } => format!(in alloc; "7 need={need} have={have}"),
        SlotFault::Full { arms } => format!(in alloc; "8 arms={arms}"),
        SlotFault::Last => String::from_str(alloc, "9"),
    }
}

pub fn fill_refused(
    alloc: Global,
    first: u64,
    written: u64,
    why: WriteFault,
) -> Result<String, AllocError>
    ensures { IfOk result (λ text. string_bytes text ≡ fill_refused_of first written why) }
{
    let why = write_fault(alloc, why)?;
    format!(in alloc; "fill {first} written={written} {why}\n")
}

/// Why a `fill` stopped, in the words of a `write`.
fn write_fault(alloc: Global, why: WriteFault) -> Result<String, AllocError>
    ensures { IfOk result (λ text. string_bytes text ≡ write_fault_of why) }
{
    match why {
        WriteFault::NoSpace {
            run,
            disabled,
            full,
            worn,
        } => { format!(in alloc; "no space run={run} disabled={disabled} full={full} worn={worn}") }
        WriteFault::Missed { columns } => format!(in alloc; "missed columns={columns}"),
        WriteFault::Last => String::from_str(alloc, "last"),
        WriteFault::NoMemory => String::from_str(alloc, "no memory"),
    }
}

pub fn contents(alloc: Global, object: u64, bytes: &[u8]) -> Result<String, AllocError>
    ensures { IfOk result (λ text. string_bytes text ≡ contents_of object bytes.now) }
{
    let len = bytes.len();
    let digits = hex::encode(alloc, bytes)?;
    format!(in alloc; "read {object} {len} {digits}\n")
}

pub fn summed(
    alloc: Global,
    first: u64,
    count: u64,
    digest: &[u8; 32],
) -> Result<String, AllocError>
    ensures { IfOk result (λ text. string_bytes text ≡ summed_of first count digest.now) }
{
    let digits = hex::encode(alloc, digest.as_slice())?;
    format!(in alloc; "sum {first} {count} {digits}\n")
}

/// Why an object of a `sum` gives no bytes, in the words of a `read`.
pub fn sum_refused(alloc: Global, object: u64, why: ObjectFault) -> Result<String, AllocError>
    ensures { IfOk result (λ text. string_bytes text ≡ sum_refused_of object why) }
{
    match why {
        ObjectFault::NoObject => format!(in alloc; "sum {object} no object\n"),
        ObjectFault::Unreadable { absent, tried } => {
            format!(in alloc; "sum {object} unreadable absent={absent} tried={tried}\n")
        }
        ObjectFault::Worn => format!(in alloc; "sum {object} worn\n"),
        ObjectFault::NoMemory => format!(in alloc; "sum no memory\n"),
    }
}

pub fn detached(alloc: Global, arm: ArmArgument, group: u64) -> Result<String, AllocError>
    ensures { IfOk result (λ text. string_bytes text ≡ detached_of arm group) }
{
    let arm = arm_text(alloc, arm)?;
    format!(in alloc; "detach {arm} ok group={group}\n")
}

pub fn detach_refused(alloc: Global, arm: ArmArgument, why: SlotFault) -> Result<String, AllocError>
    ensures { IfOk result (λ text. string_bytes text ≡ detach_refused_of arm why) }
{
    let arm = arm_text(alloc, arm)?;
    let why = slot_fault(alloc, why)?;
    format!(in alloc; "detach {arm} refused {why}\n")
}

pub fn detach_stopped(alloc: Global, arm: ArmArgument, words: &str) -> Result<String, AllocError>
    ensures { IfOk result (λ text. string_bytes text ≡ detach_stopped_of arm words.now) }
{
    let arm = arm_text(alloc, arm)?;
    format!(in alloc; "detach {arm} {words}\n")
}

/// An arm as `detach` names it.
fn arm_text(alloc: Global, arm: ArmArgument) -> Result<String, AllocError>
    ensures { IfOk result (λ text. string_bytes text ≡ arm_of arm) }
{
    match arm {
        ArmArgument::Leaf { leaf } => format!(in alloc; "{leaf}"),
        ArmArgument::Spare { parity, spare } => format!(in alloc; "draid{parity}-0-{spare}"),
    }
}

/// How a pass stands.
fn pause(paused: bool) -> &'static str
    ensures { result.now ≡ pause_of paused }
{
    if paused { "paused" } else { "done" }
}

pub fn rebuilt(
    alloc: Global,
    from: u64,
    stripes: u64,
    errors: u64,
    paused: bool,
) -> Result<String, AllocError>
    ensures { IfOk result (λ text. string_bytes text ≡ rebuilt_of from stripes errors paused) }
{
    let pause = pause(paused);
    format!(in alloc; "rebuild from={from} stripes={stripes} errors={errors} {pause}\n")
}

pub fn scrubbed(
    alloc: Global,
    from: u64,
    blocks: u64,
    repaired: u64,
    errors: u64,
    paused: bool,
) -> Result<String, AllocError>
    ensures { IfOk result (λ text. string_bytes text ≡ scrubbed_of from blocks repaired errors paused) }
{
    let pause = pause(paused);
    format!(in alloc;
        "scrub from={from} blocks={blocks} repaired={repaired} errors={errors} {pause}\n"
    )
}

pub fn rebalanced(
    alloc: Global,
    slot: u32,
    blocks: u64,
    repaired: u64,
    errors: u64,
    group: Option<u64>,
) -> Result<String, AllocError>
    ensures { IfOk result (λ text. string_bytes text ≡ rebalanced_of slot blocks repaired errors group) }
{
    let others = others(alloc, group)?;
    format!(in alloc;
        "rebalance {slot} blocks={blocks} repaired={repaired} errors={errors} {others}\n"
    )
}

/// What became of the other arms of a slot.
fn others(alloc: Global, group: Option<u64>) -> Result<String, AllocError>
    ensures { IfOk result (λ text. string_bytes text ≡ others_of group) }
{
    match group {
        None => String::from_str(alloc, "kept"),
        Some(group) => format!(in alloc; "detached group={group}"),
    }
}

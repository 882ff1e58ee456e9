ghost use Rattle.std.specs.Prelude.{◌≡◌, IfOk, IfSome, string_bytes};
ghost use Rattle.draid_files.specs.Names.{groups_text, name_text};

use draid_script::decimal;
use draid_shelf::METASLABS;
use std::alloc::{AllocError, Global};

/// Of which groups an area has the records.
#[derive(Clone, Copy)]
pub(crate) enum Groups {
    Even,
    Odd,
}

/// A file of a pool, by what it is.
#[derive(Clone, Copy)]
pub(crate) enum FileName {
    /// The area of the uberblock.
    Uber,
    /// A copy of it, which is to take its place.
    UberCopy,
    /// An area of check records.
    Check { groups: Groups },
    /// An area of a metaslab's records.
    Records { metaslab: u32, groups: Groups },
    /// A leaf of a metaslab.
    Leaf { metaslab: u32, leaf: u64 },
}

impl Groups {
    fn text(self) -> &'static str
        ensures { result.now ≡ groups_text self }
    {
        match self {
            Groups::Even => "even",
            Groups::Odd => "odd",
        }
    }
}

impl FileName {
    /// How the file is named.
    pub(crate) fn text(self, alloc: Global) -> Result<String, AllocError>
        ensures { IfOk result (λ text. string_bytes text ≡ name_text self) }
    {
        match self {
            FileName::Uber => String::from_str(alloc, "uber"),
            FileName::UberCopy => String::from_str(alloc, "uber-copy"),
            FileName::Check { groups } => {
                let groups = groups.text();
                format!(in alloc; "check-{groups}")
            }
            FileName::Records { metaslab, groups } => {
                let groups = groups.text();
                format!(in alloc; "m{metaslab}-{groups}")
            }
            FileName::Leaf { metaslab, leaf } => format!(in alloc; "m{metaslab}-leaf-{leaf}"),
        }
    }

    /// The file of a pool that has this name, if one has.
    pub(crate) fn of(alloc: Global, text: &str) -> Result<Option<FileName>, AllocError>
        ensures { IfOk result (λ found. IfSome found (λ name. name_text name ≡ text.now)) }
    {
        let Some(name) = candidate(text) else {
            return Ok(None);
        };
        let whole = name.text(alloc)?;
        if whole.as_str() == text {
            return Ok(Some(name));
        }
        Ok(None)
    }
}

/// The only file of a pool that may have this name.
fn candidate(text: &str) -> Option<FileName> {
    match text {
        "uber" => Some(FileName::Uber),
        "uber-copy" => Some(FileName::UberCopy),
        "check-even" => Some(FileName::Check {
            groups: Groups::Even,
        }),
        "check-odd" => Some(FileName::Check {
            groups: Groups::Odd,
        }),
        _ => {
            let (metaslab, part) = text.strip_prefix('m')?.split_once('-')?;
            of_metaslab(metaslab_by(metaslab)?, part)
        }
    }
}

/// A metaslab by its number.
fn metaslab_by(text: &str) -> Option<u32> {
    let number = u32::try_from(decimal(text.as_bytes())?).ok()?;
    if number < METASLABS {
        Some(number)
    } else {
        None
    }
}

/// A file of a metaslab by what follows its number.
fn of_metaslab(metaslab: u32, part: &str) -> Option<FileName> {
    match part {
        "even" => Some(FileName::Records {
            metaslab,
            groups: Groups::Even,
        }),
        "odd" => Some(FileName::Records {
            metaslab,
            groups: Groups::Odd,
        }),
        _ => {
            let leaf = decimal(part.strip_prefix("leaf-")?.as_bytes())?;
            Some(FileName::Leaf { metaslab, leaf })
        }
    }
}

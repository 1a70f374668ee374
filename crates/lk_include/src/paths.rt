ghost use Rattle.std.specs.Prelude.{◌≡◌, IfOk};
ghost use Rattle.lk_include.specs.Patterns.{names_of, is_lookml, is_root};

use lk_val::{Bytes, Items, NoMemory, Text};
use std::alloc::Global;

// How the paths of LookML files end, and how that of a model file ends.
const LOOKML: [u8; 5] = *b".lkml";

const MODEL: [u8; 11] = *b".model.lkml";

/// The names of a path, between its slashes.
#[tactic(auto, using(crate::proofs::NameSteps::all_names, crate::proofs::NameSteps::at_slash, crate::proofs::NameSteps::at_letter, crate::proofs::NameSteps::at_end))]
pub fn names_of(alloc: Global, path: &[u8]) -> Result<Items<Bytes>, NoMemory>
    ensures { IfOk result (λ names. names ≡ names_of path.now) }
{
    let mut names = Items::new(alloc);
    let mut name = Bytes::new(alloc);
    for byte in path {
        if *byte == b'/' {
            names.push(name)?;
            name = Bytes::new(alloc);
        } else {
            name.append(&[*byte])?;
        }
    }
    names.push(name)?;
    Ok(names)
}

/// Whether a path is that of a LookML file.
pub fn is_lookml(path: &Text) -> bool
    ensures { result ≡ is_lookml path.now }
{
    let bytes = path.as_bytes();
    let front = bytes.len().saturating_sub(LOOKML.len());
    bytes.split_at(front).1 == LOOKML.as_slice()
}

/// Whether a path is that of a model file.
pub fn is_root(path: &Text) -> bool
    ensures { result ≡ is_root path.now }
{
    let bytes = path.as_bytes();
    let front = bytes.len().saturating_sub(MODEL.len());
    bytes.split_at(front).1 == MODEL.as_slice()
}

// The edition that a folder's project opens with, over a store that holds nothing.

ghost use Rattle.std.specs.Prelude.{◌<◌, IfOk, length};
ghost use Rattle.std.specs.List.{All};
ghost use Rattle.lk_semantics.specs.Resolved.{IsResolved};
ghost use Rattle.lk_state.specs.Openings.{AreSeeds};

use crate::case::NOW;
use crate::fault::CaseFault;
use lk_edition::Edition;
use lk_io::{Files, FolderFiles};
use lk_ledger::Kept;
use lk_loaded_laws::read_models_are_resolved;
use lk_resolve::{Loaded, load};
use lk_seed::read_seeds;
use lk_types::Schema;
use lk_val::{Bytes, Items, NoMemory, Text};
use std::alloc::Global;

/// The edition of the project that a folder's files are.
pub fn open_folder(rt: &HostRuntime, folder: &str) -> Result<Edition, CaseFault> {
    let alloc = rt.alloc();
    let system: HostRuntime = rt.clone()?;
    let mut files = FolderFiles::at(system, Text::from_str(alloc, folder)?);
    let loaded = load_project(alloc, &mut files)?;
    let seeds = read_batches(alloc, &mut files, &loaded.model.schema);
    open_over(alloc, loaded, seeds)
}

fn load_project<F: Files>(alloc: Global, files: &mut F) -> Result<Loaded, CaseFault>
    ensures { IfOk result (λ loaded. IsResolved loaded.model) }
{
    read_models_are_resolved();
    load(alloc, files).ok().ok_or(CaseFault::NoProject)
}

fn read_batches<F: Files>(
    alloc: Global,
    files: &mut F,
    schema: &Schema,
) -> Result<Vec<(u32, Bytes)>, CaseFault>
    ensures { IfOk result (λ seeds. AreSeeds schema.now.tables seeds.items) }
{
    match read_seeds(alloc, files, schema) {
        Ok(seeds) => Ok(numbered(alloc, seeds)?),
        Err(_) => Err(CaseFault::NoProject),
    }
}

// It takes the batches as they were read, so that the project is let go of at one place.
fn open_over(
    alloc: Global,
    loaded: Loaded,
    seeds: Result<Vec<(u32, Bytes)>, CaseFault>,
) -> Result<Edition, CaseFault>
    requires model { IsResolved loaded.model }
    requires seeds { IfOk seeds (λ seeds. AreSeeds loaded.model.schema.tables seeds.items) }
{
    let seeds = seeds?;
    let kept = Kept {
        number: 0,
        chunks: Items::new(alloc),
        ids: Items::new(alloc),
    };
    let Loaded { model, users } = loaded;
    let opened = Edition::open(alloc, model, users, kept, seeds.as_slice(), NOW);
    opened.ok().ok_or(CaseFault::NoProject)
}

// The batches of tables, each with its table's number.
fn numbered(alloc: Global, seeds: Items<Option<Bytes>>) -> Result<Vec<(u32, Bytes)>, NoMemory>
    ensures { IfOk result (λ given. All (λ seed. seed.0 < length seeds) given.items) }
{
    let mut given = Vec::new(alloc);
    let mut number = 0u32;
    for seed in seeds.into_vec() {
        if let Some(body) = seed {
            given.push((number, body))?;
        }
        number = number.checked_add(1).ok_or(NoMemory)?;
    }
    Ok(given)
}

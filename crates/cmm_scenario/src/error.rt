ghost use Rattle.std.specs.Prelude.{◌≡◌, Result, Err, IfErr};
ghost use Rattle.cmm_scenario.specs.Faults.{Gives, here, inside, error_inside, at_root};
ghost use Rattle.cmm_scenario.specs.declared.error.ScenarioError.{ScenarioError};

use crate::fault::Kind;
use crate::path::Path;
use std::alloc::{AllocError, AllocFailed, Global};

/// Why bytes are no scenario.
#[derive(Debug, Drop)]
pub enum ScenarioError {
    /// The bytes have no JSON reading in which lists and objects nest at most 127 deep.
    NotJson,
    /// The first fault of the walk through the tree.
    Fault { path: Path, kind: Kind },
    /// Memory ran out.
    NoMemory,
}

impl From<AllocError> for ScenarioError {
    ghost use Rattle.cmm_scenario.specs.declared.error.ScenarioError.TheVariants.{NoMemory};

    ghost from_gives = { λ _ e. e ≡ NoMemory };

    fn from(_e: AllocError) -> ScenarioError {
        ScenarioError::NoMemory
    }
}

impl<T: Drop> From<AllocFailed<T>> for ScenarioError {
    ghost use Rattle.cmm_scenario.specs.declared.error.ScenarioError.TheVariants.{NoMemory};

    ghost from_gives = { λ _ e. e ≡ NoMemory };

    fn from(_e: AllocFailed<T>) -> ScenarioError {
        ScenarioError::NoMemory
    }
}

/// A fault of the value that is read.
pub fn here<T: Drop>(alloc: Global, read: Result<T, Kind>) -> Result<T, ScenarioError>
    ensures { result ≡ here read }
{
    match read {
        Ok(value) => Ok(value),
        Err(kind) => Err(ScenarioError::Fault {
            path: Path::here(alloc),
            kind,
        }),
    }
}

/// What was read inside a member or an item of that name. Only a fault takes memory.
pub fn inside<T: Drop>(
    alloc: Global,
    name: &[u8],
    read: Result<T, ScenarioError>,
) -> Result<T, ScenarioError>
    ensures gives { (s : Result T ScenarioError) → Gives read s → Gives result (inside name.now s) }
    ensures fault { IfErr read (λ e. Gives result (Err (error_inside name.now e))) }
{
    match read {
        Ok(value) => Ok(value),
        Err(ScenarioError::Fault { path, kind }) => match path.inside(alloc, name) {
            Ok(path) => Err(ScenarioError::Fault { path, kind }),
            Err(_) => Err(ScenarioError::NoMemory),
        },
        Err(e) => Err(e),
    }
}

/// What was read of the whole scenario.
pub fn at_root<T: Drop>(alloc: Global, read: Result<T, ScenarioError>) -> Result<T, ScenarioError>
    ensures { (s : Result T ScenarioError) → Gives read s → Gives result (at_root s) }
{
    match read {
        Ok(value) => Ok(value),
        Err(ScenarioError::Fault { path, kind }) => match path.at_root(alloc) {
            Ok(path) => Err(ScenarioError::Fault { path, kind }),
            Err(_) => Err(ScenarioError::NoMemory),
        },
        Err(e) => Err(e),
    }
}

ghost use Rattle.std.specs.Prelude.{◌≡◌, [], ◌∷◌, ◌++◌, IfOk};
ghost use Rattle.cmm_scenario.specs.Paths.{root_path};

use std::alloc::{AllocError, Global};
use std::marker::Model;

/// Where a fault lies: `/` for the whole scenario, else a slash before each key and each place of an item, as in
/// `/guests/0/cpus/1/commands`. Contracts see its text.
#[derive(Debug, Drop)]
pub struct Path {
    text: Vec<u8>,
}

impl Model for Path {
    ghost use Rattle.std.specs.Prelude.{List, ℕ};

    ghost Value = { List ℕ };

    ghost view = { λ p. p.text.items };
}

impl Path {
    pub fn as_slice(&self) -> &[u8]
        ensures { result.now ≡ self.now }
    {
        self.text.as_slice()
    }

    /// The path of a value, seen from that value.
    pub(crate) fn here(alloc: Global) -> Path
        ensures { result ≡ [] }
    {
        Path {
            text: Vec::new(alloc),
        }
    }

    /// The path, seen from the object or the list around it.
    pub(crate) fn inside(self, alloc: Global, name: &[u8]) -> Result<Path, AllocError>
        ensures { IfOk result (λ path. path ≡ 47 ∷ name.now ++ self) }
    {
        let mut text = Vec::from_slice(alloc, b"/")?;
        text.extend_from_slice(name)?;
        text.extend_from_slice(self.text.as_slice())?;
        Ok(Path { text })
    }

    /// The path, where an empty one is of the whole scenario.
    pub(crate) fn at_root(self, alloc: Global) -> Result<Path, AllocError>
        ensures { IfOk result (λ path. path ≡ root_path self) }
    {
        if self.text.is_empty() {
            Ok(Path {
                text: Vec::from_slice(alloc, b"/")?,
            })
        } else {
            Ok(self)
        }
    }
}

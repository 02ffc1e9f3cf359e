//! The files that a configuration names.

ghost use Rattle.std.specs.Prelude.{◌≡◌};

use base_texts::Name;
use sim_base::Bytes;
use std::marker::Model;

/// What a file holds, under the name by which it is read.
#[derive(Drop)]
pub struct File {
    pub name: Name,
    pub bytes: Bytes,
}

/// Files in order, which contracts see as a list.
#[derive(Drop)]
pub struct Files {
    items: Vec<File>,
}

impl Model for Files {
    ghost use Rattle.std.specs.Prelude.{List};
    ghost use Rattle.self_load.specs.declared.files.File.{File};

    ghost Value = { List File };

    ghost view = { λ f. f.items.items };
}

impl Files {
    pub fn as_slice(&self) -> &[File]
        ensures { result.now ≡ self.now }
    {
        self.items.as_slice()
    }

    /// Gives the files back without taking memory.
    pub fn into_vec(self) -> Vec<File>
        ensures { result.items ≡ self }
    {
        let Files { items } = self;
        items
    }
}

impl From<Vec<File>> for Files {
    ghost from_gives = { λ v f. f ≡ v.items };

    fn from(items: Vec<File>) -> Files {
        Files { items }
    }
}

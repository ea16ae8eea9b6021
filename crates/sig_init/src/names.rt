//! The names of a store's two files.

ghost use Rattle.std.specs.Prelude.{◌≡◌, ◌++◌, IfOk};
ghost use Rattle.sig_init.specs.Files.{file_a, file_b};

use sig_json::{Memory, Text};
use std::alloc::Global;

/// The names of a store's two files.
#[derive(Drop)]
pub struct FileNames {
    pub a: Text,
    pub b: Text,
}

/// The names of the two files of a store with this name.
pub fn file_names(alloc: Global, store: &str) -> Result<FileNames, Memory>
    ensures a { IfOk result (λ names. names.a ≡ file_a store.now) }
    ensures b { IfOk result (λ names. names.b ≡ file_b store.now) }
{
    Ok(FileNames {
        a: joined(alloc, store, ".a")?,
        b: joined(alloc, store, ".b")?,
    })
}

fn joined(alloc: Global, store: &str, ending: &str) -> Result<Text, Memory>
    ensures { IfOk result (λ name. name ≡ store.now ++ ending.now) }
{
    let mut name = String::from_str(alloc, store)?;
    name.push_str(ending)?;
    Ok(Text::from_string(name))
}

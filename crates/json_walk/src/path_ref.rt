//! A path that is lent in parts.

ghost use Rattle.std.specs.Prelude.{◌≡◌, IfOk};

use crate::path::PathText;
use base::Memory;
use std::alloc::Global;

/// A path made of lent parts: it costs nothing to make, and its text is written only where a
/// fault needs it.
#[derive(Clone, Copy)]
pub enum PathRef<'a> {
    /// The whole value.
    Root,
    /// A path whose text is there already.
    Text(&'a PathText),
    /// A member of the object at a path.
    Key(&'a PathRef<'a>, &'a str),
    /// An item of the list at a path, counted from 0.
    Item(&'a PathRef<'a>, u64),
}

impl<'a> PathRef<'a> {
    ghost use Rattle.json_walk.specs.Prelude.{item_path, key_path, path_of};

    /// The path of a member.
    pub fn key(&'a self, key: &'a str) -> PathRef<'a>
        ensures { path_of result ≡ key_path (path_of self.now) key.now }
    {
        PathRef::Key(self, key)
    }

    /// The path of a list's item, counted from 0.
    pub fn item(&'a self, place: u64) -> PathRef<'a>
        ensures { path_of result ≡ item_path (path_of self.now) place }
    {
        PathRef::Item(self, place)
    }

    /// The path as text.
    pub fn to_text(&self, alloc: Global) -> Result<PathText, Memory>
        ensures { IfOk result (λ p. p ≡ path_of self.now) }
    {
        match self {
            PathRef::Root => Ok(PathText::root(alloc)),
            PathRef::Text(path) => path.copy(),
            PathRef::Key(object, key) => object.to_text(alloc)?.key(key),
            PathRef::Item(list, place) => list.to_text(alloc)?.item(*place),
        }
    }
}

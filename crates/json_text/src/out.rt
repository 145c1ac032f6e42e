//! An object and a list that grow, and the values that they hold.

ghost use Rattle.std.specs.Prelude.{◌≡◌, [], ◌∷◌, ◌++◌, None, OnOk, OnErr, IfOk};
ghost use Rattle.serde_json.specs.Data.{object, array, number as number_data, unsigned, boolean, string, no_members, put};
ghost use Rattle.serde_json.specs.Find.{get_member};
ghost use Rattle.serde_json.specs.View.{view, items_of};

use base::Memory;
use serde_json::{Map, Value};
use std::alloc::Global;

/// An object that grows. Its members stand in ascending order of their keys' bytes, in whatever
/// order they came.
#[derive(Drop)]
pub struct ObjectOut {
    alloc: Global,
    map: Map<String, Value>,
}

impl ObjectOut {
    ghost use Rattle.json_text.specs.Out.{members};

    /// An object without members.
    pub fn new(alloc: Global) -> ObjectOut
        ensures { members result ≡ no_members }
    {
        ObjectOut {
            alloc,
            map: Map::new(alloc),
        }
    }

    /// Adds a member. Where memory is wanting, the value is dropped and the object is as before.
    pub fn put(&mut self, key: &str, value: Value) -> Result<(), Memory>
        requires { get_member key.now (members self.old) ≡ None }
        ensures ok { OnOk result (members self.new ≡ put key.now (view value) (members self.old)) }
        ensures err { OnErr result (members self.new ≡ members self.old) }
    {
        serde_json::put(&mut self.map, self.alloc, key, value)?;
        Ok(())
    }

    /// The object as a value.
    pub fn finish(self) -> Value
        ensures { view result ≡ object (members self) }
    {
        Value::Object(self.map)
    }
}

/// A list that grows at its end.
#[derive(Drop)]
pub struct ListOut {
    items: Vec<Value>,
}

impl ListOut {
    ghost use Rattle.json_text.specs.Out.{items};

    /// A list without items.
    pub fn new(alloc: Global) -> ListOut
        ensures { items result ≡ [] }
    {
        ListOut {
            items: Vec::new(alloc),
        }
    }

    /// Adds an item at the end. Where memory is wanting, the value is dropped and the list is as
    /// before.
    pub fn push(&mut self, value: Value) -> Result<(), Memory>
        ensures ok { OnOk result (items self.new ≡ items self.old ++ view value ∷ []) }
        ensures err { OnErr result (items self.new ≡ items self.old) }
    {
        self.items.push(value)?;
        Ok(())
    }

    /// The list as a value.
    pub fn finish(self) -> Value
        ensures { view result ≡ array (items_of (items self)) }
    {
        Value::Array(self.items)
    }
}

/// A whole number.
pub fn number(value: u64) -> Value
    ensures { view result ≡ number_data (unsigned value) }
{
    Value::from(value)
}

/// A truth value.
pub fn flag(value: bool) -> Value
    ensures { view result ≡ boolean value }
{
    Value::Bool(value)
}

/// A text.
pub fn word(alloc: Global, text: &str) -> Result<Value, Memory>
    ensures { IfOk result (λ v. view v ≡ string text.now) }
{
    Ok(Value::try_from_str(alloc, text)?)
}

//! A list of keys.

ghost use Rattle.std.specs.Prelude.{◌≡◌, [], ◌∷◌, ◌++◌, OnOk, OnErr, string_bytes};
ghost use Rattle.std.specs.List.{list_any};
ghost use Rattle.std.specs.Str.{bytes_eq};

use base::Memory;
use std::alloc::Global;
use std::marker::Model;

#[derive(Drop)]
pub struct Keys {
    alloc: Global,
    names: Vec<String>,
}

impl Model for Keys {
    ghost use Rattle.std.specs.Prelude.{ℕ, List, map, string_bytes};

    ghost Value = { List (List ℕ) };

    ghost view = { λ k. map string_bytes k.names.items };
}

impl Keys {
    pub fn new(alloc: Global) -> Keys
        ensures { result ≡ [] }
    {
        Keys {
            alloc,
            names: Vec::new(alloc),
        }
    }

    pub fn push(&mut self, key: &str) -> Result<(), Memory>
        ensures ok { OnOk result (self.new ≡ self.old ++ key.now ∷ []) }
        ensures err { OnErr result (self.new ≡ self.old) }
    {
        let name = String::from_str(self.alloc, key)?;
        self.names.push(name)?;
        Ok(())
    }

    #[tactic(auto, using(crate::proofs::Walks::known_rules))]
    pub fn has(&self, key: &str) -> bool
        ensures { result ≡ list_any (bytes_eq key.now) self.now }
    {
        is_any(key, &self.names)
    }
}

fn is_any(key: &str, names: &[String]) -> bool
    ensures { result ≡ list_any (λ n. bytes_eq key.now (string_bytes n)) names.now }
{
    names.iter().any(|name| key == name.as_str())
}

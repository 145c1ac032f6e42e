//! The place of a value inside a JSON text.

ghost use Rattle.std.specs.Prelude.{◌≡◌, IfOk};

use base::Memory;
use std::alloc::Global;
use std::marker::Model;

/// A place, as `constraints[2].groups[1][0]`; the root is `$`.
#[derive(Drop)]
pub struct PathText {
    alloc: Global,
    text: Option<String>,
}

impl Model for PathText {
    ghost use Rattle.std.specs.Prelude.{ℕ, List, string_bytes};
    ghost use Rattle.std.specs.Option.{option_map_or};
    ghost use Rattle.json_walk.specs.Path.{root};

    ghost Value = { List ℕ };

    ghost view = { λ p. option_map_or string_bytes p.text root };
}

impl PathText {
    ghost use Rattle.json_walk.specs.Path.{root, key_path, item_path};

    /// The path of the whole value.
    pub fn root(alloc: Global) -> PathText
        ensures { result ≡ root }
    {
        PathText { alloc, text: None }
    }

    pub fn as_text(&self) -> &str
        ensures { result.now ≡ self.now }
    {
        match &self.text {
            Some(text) => text.as_str(),
            None => "$",
        }
    }

    /// The path of a member.
    #[tactic(auto, unfolding(crate::specs::Path::key_path))]
    pub fn key(&self, text: &str) -> Result<PathText, Memory>
        ensures { IfOk result (λ p. p ≡ key_path self.now text.now) }
    {
        let here = self.as_text();
        let joined = if here == "$" {
            String::from_str(self.alloc, text)?
        } else {
            format!(in self.alloc; "{here}.{text}")?
        };
        Ok(PathText {
            alloc: self.alloc,
            text: Some(joined),
        })
    }

    /// The path of a list's item.
    #[tactic(auto, unfolding(crate::specs::Path::item_path))]
    pub fn item(&self, place: u64) -> Result<PathText, Memory>
        ensures { IfOk result (λ p. p ≡ item_path self.now place) }
    {
        let here = self.as_text();
        let joined = format!(in self.alloc; "{here}[{place}]")?;
        Ok(PathText {
            alloc: self.alloc,
            text: Some(joined),
        })
    }

    /// The same path.
    pub fn copy(&self) -> Result<PathText, Memory>
        ensures { IfOk result (λ p. p ≡ self.now) }
    {
        let text = String::from_str(self.alloc, self.as_text())?;
        Ok(PathText {
            alloc: self.alloc,
            text: Some(text),
        })
    }
}

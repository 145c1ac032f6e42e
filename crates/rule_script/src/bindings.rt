//! Variables and their values.
ghost use Rattle.std.specs.Prelude.{◌≡◌, [], OnOk, OnErr, IfOk, option_copied};
ghost use Rattle.rule_script.specs.Bindings.{bind, lookup};
ghost use Rattle.rule_script.specs.Values.{there};

use crate::elements::Elements;
use crate::faults::Mistake;
use crate::text::Text;
use base::Memory;
use cluster::Element;
use indexmap::IndexMap;
use std::alloc::Global;
use std::marker::Model;

/// The values of variables. A name finds its value in constant time.
#[derive(Drop)]
pub struct Variables {
    values: IndexMap<Vec<u8>, Elements>,
}

impl Model for Variables {
    ghost use Rattle.std.specs.Prelude.{List, ℕ, map};
    ghost use Rattle.cluster.specs.declared.ids.Element.{Element};

    ghost Value = { List (List ℕ × List Element) };

    ghost view = { λ a. map (λ e. (e.0.items, e.1)) a.values.entries };
}

impl Variables {
    /// No variable has a value.
    pub fn new(alloc: Global) -> Variables
        ensures { result ≡ [] }
    {
        Variables {
            values: IndexMap::new(alloc),
        }
    }

    /// The value of a variable, if it has one.
    fn get(&self, name: &[u8]) -> Option<&Elements>
        ensures { option_copied result ≡ lookup self.now name.now }
    {
        self.values.get(name)
    }

    /// Binds a variable to a value. After want of memory each variable is as it was.
    pub fn bind(&mut self, alloc: Global, name: &[u8], value: Elements) -> Result<(), Memory>
        ensures bound { OnOk result (self.new ≡ bind self.old name.now value) }
        ensures kept { OnErr result (self.new ≡ self.old) }
    {
        match self.values.get_index_of(name) {
            Some(place) => self.values[place] = value,
            None => {
                let key = Vec::from_slice(alloc, name)?;
                self.values.insert(key, value)?;
            }
        }
        Ok(())
    }
}

/// Variables, of which one may have another value for a time. Contracts see them as the variables
/// that stand then.
#[derive(Drop)]
pub struct Bindings<'a> {
    variables: &'a Variables,
    own: Option<(Text<'a>, Elements)>,
}

impl<'a> Model for Bindings<'a> {
    ghost use Rattle.std.specs.Prelude.{List, ℕ};
    ghost use Rattle.cluster.specs.declared.ids.Element.{Element};
    ghost use Rattle.rule_script.specs.Bindings.{bind_own};

    ghost Value = { List (List ℕ × List Element) };

    ghost view = { λ a. bind_own a.variables.now a.own };
}

impl<'a> Bindings<'a> {
    /// The variables alone.
    pub(crate) fn new(variables: &'a Variables) -> Bindings<'a>
        ensures { result ≡ variables.now }
    {
        Bindings {
            variables,
            own: None,
        }
    }

    /// With one variable that has a value of its own.
    pub(crate) fn with(variables: &'a Variables, name: Text<'a>, value: Elements) -> Bindings<'a>
        ensures { result ≡ bind variables.now name.entry value }
    {
        Bindings {
            variables,
            own: Some((name, value)),
        }
    }

    /// The value of a variable, if it has one.
    #[tactic(auto, using(crate::proofs::BindingLemmas::lookup_rules))]
    fn get(&self, name: &[u8]) -> Option<&Elements>
        ensures { option_copied result ≡ lookup self.now name.now }
    {
        let variables = self.variables;
        match &self.own {
            Some((own, value)) if name == own.bytes() => Some(value),
            _ => variables.get(name),
        }
    }

    /// The value of a variable, or the mistake that it has none. The one error is want of memory.
    pub(crate) fn value(&self, name: &[u8]) -> Result<Result<Elements, Mistake>, Memory>
        ensures { IfOk result (λ worth. worth ≡ there (lookup self.now name.now)) }
    {
        match self.get(name) {
            Some(value) => Ok(Ok(value.copy()?)),
            None => Ok(Err(Mistake::NoSuch)),
        }
    }
}

//! Names of elements and resources.
ghost use Rattle.std.specs.Prelude.{◌≡◌, IsTrue, IfOk, IfErr, OnOk, string_bytes, if◌then◌else◌};
ghost use Rattle.std.specs.List.{list_all};
ghost use Rattle.cluster.specs.Names.{is_name, starts_name, goes_on_name};

use crate::limits::MAX_NAME_BYTES;
use base::Memory;
use std::alloc::{AllocError, Global};
use std::marker::Model;
use thiserror::Error;

/// Why a name was refused.
#[derive(Clone, Copy, Debug, PartialEq, Eq, Error)]
pub enum NameFault {
    /// The bytes are not 1 to `MAX_NAME_BYTES` letters, digits, `_`, `.` and `-` that begin with a letter, a digit or `_`.
    #[error("not a name")]
    BadName,
    /// An allocation was refused.
    #[error("out of memory")]
    Memory,
}

impl From<AllocError> for NameFault {
    ghost use Rattle.cluster.specs.declared.names.NameFault.TheVariants.{Memory as NoMemory};

    ghost from_gives = { λ _ e. e ≡ NoMemory };

    fn from(_error: AllocError) -> NameFault {
        NameFault::Memory
    }
}

/// A name: 1 to `MAX_NAME_BYTES` letters, digits, `_`, `.` and `-`, the first a letter, a digit or `_`.
///
/// Contracts see it as its bytes.
#[derive(Drop)]
pub struct Name {
    text: String,
}

impl Model for Name {
    ghost use Rattle.std.specs.Prelude.{List, ℕ, IsTrue, string_bytes};
    ghost use Rattle.cluster.specs.Names.{is_name};

    ghost Value = { List ℕ };

    ghost view = { λ a. string_bytes a.text };

    ghost invariant = { λ a. IsTrue (is_name (string_bytes a.text)) };
}

fn may_start(b: u8) -> bool
    ensures { result ≡ starts_name b }
{
    b.is_ascii_alphanumeric() || b == b'_'
}

fn may_follow(b: u8) -> bool
    ensures { result ≡ goes_on_name b }
{
    may_start(b) || b == b'.' || b == b'-'
}

fn all_follow(bytes: &[u8]) -> bool
    ensures { result ≡ list_all goes_on_name bytes.now }
{
    bytes.iter().all(|b| may_follow(*b))
}

/// Whether the bytes are a name, which is whether `Name::new` takes them.
#[tactic(auto, unfolding(crate::specs::Names::is_name))]
pub fn is_name_text(bytes: &[u8]) -> bool
    ensures { result ≡ is_name bytes.now }
{
    let shaped = 0 < bytes.len() && bytes.len() <= MAX_NAME_BYTES;
    shaped && may_start(bytes[0]) && all_follow(bytes)
}

impl Name {
    /// The name of these bytes. `BadName` where they are none, `Memory` where an allocation was refused.
    pub fn new(alloc: Global, bytes: &[u8]) -> Result<Name, NameFault>
        ensures good { OnOk result (IsTrue (is_name bytes.now)) }
        ensures name { IfOk result (λ n. n ≡ bytes.now) }
        ensures fault { IfErr result (λ e. e ≡ (if is_name bytes.now then NameFault.Memory else NameFault.BadName)) }
    {
        if !is_name_text(bytes) {
            return Err(NameFault::BadName);
        }
        match str::from_utf8(bytes) {
            Ok(text) => {
                let text = text.to_string(alloc)?;
                Ok(Name { text })
            }
            Err(_) => unreachable!(),
        }
    }

    /// The name as text.
    pub fn as_text(&self) -> &str
        ensures text { result.now ≡ self.now }
        ensures good { IsTrue (is_name self.now) }
    {
        self.text.as_str()
    }

    /// A copy of the bytes. Its one error is a refused allocation.
    pub(crate) fn to_bytes(&self) -> Result<Vec<u8>, Memory>
        ensures { IfOk result (λ bytes. bytes.items ≡ self.now) }
    {
        let text = self.text.clone()?;
        Ok(text.into_bytes())
    }

    /// An equal name. Its one error is a refused allocation.
    pub fn copy(&self) -> Result<Name, Memory>
        ensures { IfOk result (λ n. n ≡ self.now) }
    {
        let text = self.text.clone()?;
        Ok(Name { text })
    }
}

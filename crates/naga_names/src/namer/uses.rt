//! How often each stem was used.
ghost use Rattle.std.specs.Prelude.{◌≡◌, ℕ, ◌+◌, ◌^◌, ◌<◌, map, IfSome, IfOk, IfErr, IsErr, OnOk};
ghost use Rattle.std.specs.Prelude.{OnErr, string_bytes};
ghost use Rattle.std.specs.Option.{IfNone, option_map};
ghost use Rattle.std.specs.Cmp.Lexicographic.{slice_cmp};
ghost use Rattle.std.specs.Coded.{coded_ℕ, coded_list};
ghost use Rattle.std.specs.FinMap as finite;
ghost use Rattle.std.specs.Ordering.{nat_cmp};
ghost use Rattle.naga_naming.specs.Naming.{GivesLaterName, later_name, uses_of};
ghost use Rattle.naga_naming.specs.Refusal.{IsRefusalOfStem};

use crate::namer::NamerError;
use itoa::Buffer;
use std::alloc::{AllocError, Global};
use std::collections::HashMap;
use std::marker::Model;

/// A counter for each stem. Contracts see it as the finite map from each stem to its uses.
#[derive(Drop)]
pub struct Uses {
    // How often each stem was used after its first use.
    later: HashMap<String, u32>,
}

impl Model for Uses {
    ghost Value = { finite.FinMap (slice_cmp nat_cmp) ℕ };

    ghost coded = { finite.code (coded_list coded_ℕ) coded_ℕ };

    ghost view = { λ u.
        finite.from_entries (map (λ e. (string_bytes e.0, e.1 + 1)) u.later.entries) };
}

impl Uses {
    /// No stem was used.
    pub fn new(alloc: Global) -> Self
        ensures { result ≡ finite.empty }
    {
        Self {
            later: HashMap::new(alloc),
        }
    }

    /// The next name of a stem that was used before, and one more use of it. A stem that was never
    /// used has none. A refused call changes nothing.
    pub fn later_name(&mut self, alloc: Global, stem: &str) -> Result<Option<String>, NamerError>
        ensures ok { IfOk result (λ name.
            GivesLaterName self.old stem.now (option_map string_bytes name) self.new) }
        ensures err { OnErr result (self.new ≡ self.old) }
        ensures reason { IfErr result (IsRefusalOfStem self.old stem.now) }
        ensures full { uses_of self.old stem.now ≡ 2 ^ 32 → IsErr result }
    {
        let Some(later) = self.later.get_mut(stem) else {
            return Ok(None);
        };
        let Some(number) = number_after(*later) else {
            return Err(NamerError::Full);
        };
        let name = numbered(alloc, stem, number)?;
        *later = number;
        Ok(Some(name))
    }

    /// The first use of the stem.
    pub fn begin(&mut self, stem: String) -> Result<(), AllocError>
        ensures ok { OnOk result (self.new ≡ finite.insert self.old (string_bytes stem) 1) }
        ensures err { OnErr result (self.new ≡ self.old) }
    {
        self.later.insert(stem, 0)?;
        Ok(())
    }
}

/// The number after this one, unless this is the greatest.
fn number_after(later: u32) -> Option<u32>
    ensures number { IfSome result (λ number. (number ≡ later + 1) × (number < 2 ^ 32)) }
    ensures none { IfNone result (later + 1 ≡ 2 ^ 32) }
{
    later.checked_add(1)
}

/// The stem with `_` and the number after it.
fn numbered(alloc: Global, stem: &str, number: u32) -> Result<String, AllocError>
    ensures { IfOk result (λ name. string_bytes name ≡ later_name stem.now number) }
{
    let mut buffer = Buffer::new();
    let digits = buffer.format(number);
    let mut name = String::with_capacity(alloc, stem.len() + 1 + digits.len())?;
    name.push_str(stem)?;
    name.push('_')?;
    name.push_str(digits)?;
    Ok(name)
}

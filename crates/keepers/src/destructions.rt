ghost use Rattle.std.specs.Prelude.{◌≡◌, ◌≤◌, ◌==◌, ℕ, nat_lt, true, if◌then◌else◌, IfOk};
ghost use Rattle.codes.specs.declared.limits.TheConstants.{MAX_SPACES};
ghost use Rattle.ipc_model.specs.history.History.{is_destruction};
ghost use Rattle.keepers.specs.Destroying.{IsNoted, count_at, is_noted};

use codes::MAX_SPACES;
use ipc_model::{Call, PlainCall};
use std::alloc::{AllocError, Global};
use std::marker::Model;

/// For each number that a space can have, how many records had been made right after a space under it was last
/// destroyed. 0: none was.
#[derive(Drop)]
pub struct Destructions {
    counts: Vec<u64>,
}

impl Model for Destructions {
    ghost use Rattle.std.specs.Prelude.{◌≡◌, ◌+◌, List, ℕ, length};
    ghost use Rattle.std.specs.Coded.{coded_list, coded_ℕ};
    ghost use Rattle.codes.specs.declared.limits.TheConstants.{MAX_SPACES};

    ghost Value = { List ℕ };

    ghost coded = { coded_list coded_ℕ };

    ghost view = { λ d. d.counts.items };

    ghost invariant = { λ d. length d.counts.items ≡ MAX_SPACES + 1 };
}

impl Destructions {
    /// No space was destroyed yet.
    pub fn none(alloc: Global) -> Result<Self, AllocError>
        ensures { IfOk result (λ none. (space : ℕ) → count_at none space ≡ 0) }
    {
        let counts = vec![in alloc; 0; MAX_SPACES as usize + 1]?;
        Ok(Destructions { counts })
    }

    /// Notes a call that was made in this space, before which there were `before` records and after which there are
    /// `after`: if it destroyed the space, its record is the last one.
    pub(crate) fn note(&mut self, space: u32, call: &Call, before: u64, after: u64)
        requires known { is_noted call.now before after ≡ true → space ≤ MAX_SPACES }
        ensures { IsNoted self.old space call.now before after self.new }
    {
        if is_noted(call, before, after) {
            self.put(space, after);
        }
    }

    fn put(&mut self, space: u32, after: u64)
        requires { space ≤ MAX_SPACES }
        ensures { (q : ℕ) → count_at self.new q ≡ (if q == space then after else count_at self.old q) }
    {
        self.counts[space as usize] = after;
    }

    /// Returns whether a space under this number was destroyed after so many records.
    pub(crate) fn has_since(&self, space: u32, since: u64) -> bool
        ensures { result ≡ nat_lt since (count_at self.now space) }
    {
        match self.counts.get(space as usize) {
            Some(count) => since < *count,
            None => false,
        }
    }
}

fn is_noted(call: &Call, before: u64, after: u64) -> bool
    ensures { result ≡ is_noted call.now before after }
{
    before < after && is_destruction(call)
}

fn is_destruction(call: &Call) -> bool
    ensures { result ≡ is_destruction call.now }
{
    match call {
        Call::Plain(PlainCall::SpaceDestroy) => true,
        _ => false,
    }
}

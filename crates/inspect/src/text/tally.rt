ghost use Rattle.std.specs.Prelude.{◌≡◌, ◌+◌, IfOk};
ghost use Rattle.std.specs.FinMap as finmap;
ghost use Rattle.inspect.specs.text.Gathering.{with_right, no_rights, tally_of, noted, gathered};

use crate::text::standing::{Standing, StandingRight};
use crate::text::walk::{Visitor, see_snapshot};
use ipc_model::RightKind;
use number_map::NumberMap;
use snapshot::IpcSnapshot;
use std::alloc::{AllocError, Global};

/// The rights to a port.
#[derive(Clone, Copy)]
pub(crate) struct Tally {
    /// The place of its receive right.
    pub(crate) receive: Option<Standing>,
    /// Number of send rights.
    pub(crate) send: u64,
    /// Number of send-once rights.
    pub(crate) send_once: u64,
}

/// Returns the next count. No memory holds so many rights that the count overflows.
fn one_more(count: u64) -> Result<u64, AllocError>
    ensures { IfOk result (λ more. more ≡ count + 1) }
{
    match count.checked_add(1) {
        Some(more) => Ok(more),
        None => Err(AllocError),
    }
}

impl Tally {
    fn none() -> Tally
        ensures { result ≡ no_rights }
    {
        Tally {
            receive: None,
            send: 0,
            send_once: 0,
        }
    }

    /// Returns the tally with one more right.
    fn with_right(self, kind: RightKind, standing: Standing) -> Result<Tally, AllocError>
        ensures { IfOk result (λ tally. tally ≡ with_right kind standing self) }
    {
        Ok(match kind {
            RightKind::Receive => Tally {
                receive: self.receive.or(Some(standing)),
                ..self
            },
            RightKind::Send => Tally {
                send: one_more(self.send)?,
                ..self
            },
            RightKind::SendOnce => Tally {
                send_once: one_more(self.send_once)?,
                ..self
            },
        })
    }
}

/// The rights to each port, by its serial.
#[derive(Drop)]
pub(crate) struct Tallies {
    by_port: NumberMap<Tally>,
}

impl Tallies {
    pub(crate) fn new(alloc: Global) -> Tallies
        ensures { result.by_port ≡ finmap.empty }
    {
        Tallies {
            by_port: NumberMap::new(alloc),
        }
    }

    /// Returns the rights to a port.
    pub(crate) fn tally(&self, serial: u64) -> Tally
        ensures { result ≡ tally_of self.now.by_port serial }
    {
        match self.by_port.get(u128::from(serial)) {
            Some(tally) => *tally,
            None => Tally::none(),
        }
    }
}

impl Visitor for Tallies {
    ghost use Rattle.inspect.specs.text.Gathering.{Notes, noted};

    ghost View = { Notes };

    ghost view = { λ tallies. tallies.by_port };

    ghost seen = { noted };

    #[tactic(auto, unfolding(crate::specs::text::Gathering::noted))]
    fn see(&mut self, right: StandingRight) -> Result<(), AllocError> {
        let tally = self
            .tally(right.port)
            .with_right(right.kind, right.standing)?;
        self.by_port.insert(u128::from(right.port), tally)?;
        Ok(())
    }
}

/// Collects the rights to a snapshot's ports in one walk. It fails only if out of memory.
#[tactic(auto, unfolding(crate::specs::text::Gathering::gathered))]
pub(crate) fn gather(alloc: Global, snapshot: &IpcSnapshot) -> Result<Tallies, AllocError>
    ensures { IfOk result (λ tallies. tallies.by_port ≡ gathered snapshot.now) }
{
    let mut tallies = Tallies::new(alloc);
    see_snapshot(&mut tallies, snapshot)?;
    Ok(tallies)
}

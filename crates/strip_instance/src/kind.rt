// The two kinds of rates: for a day of work, and for a day of waiting.
ghost use Rattle.std.specs.Prelude.{◌≡◌};
ghost use Rattle.strip_model.specs.Instance.{actor_data};
ghost use Rattle.strip_instance.specs.Fault.{fault_data};
ghost use Rattle.strip_instance.specs.Shown.{rate_fault, rate_of, rate_word};

use crate::fault::InstanceFault;
use strip_model::Actor;

/// The kind of a row of rates.
#[derive(Clone, Copy)]
pub enum RateKind {
    /// A day of work.
    Work,
    /// A day of waiting.
    Wait,
}

impl RateKind {
    /// Returns the row's first word.
    pub fn word(self) -> &'static [u8]
        ensures { result.now ≡ rate_word self }
    {
        match self {
            RateKind::Work => b"rate",
            RateKind::Wait => b"hold",
        }
    }

    /// Returns the fault of a column without a valid rate.
    pub(crate) fn fault(self, col: u64) -> InstanceFault
        ensures { fault_data result ≡ rate_fault self col }
    {
        match self {
            RateKind::Work => InstanceFault::BadRate { col },
            RateKind::Wait => InstanceFault::BadHold { col },
        }
    }

    /// Returns the actor's rate for a day, in units of money.
    pub fn of(self, actor: &Actor) -> u64
        ensures { result ≡ rate_of self (actor_data actor.now) }
    {
        match self {
            RateKind::Work => actor.rate,
            RateKind::Wait => actor.hold,
        }
    }
}

//! How far a simulation goes.
ghost use Rattle.std.specs.Prelude.{◌≡◌, ◌<◌, ◌≤◌, ◌^◌};
ghost use Rattle.model_core.specs.declared.limits.TheConstants.{MOST_EVENTS};
ghost use Rattle.text_fields.specs.TermsOf.{terms_of};

use sim_spec::Terms;

/// The terms with this end and this limit.
pub fn terms_of(end: u64, limit: u64) -> Terms
    requires end { end < 2 ^ 46 }
    requires some_event { 1 ≤ limit }
    requires limit { limit ≤ MOST_EVENTS }
    ensures { result ≡ terms_of end limit }
{
    Terms { end, limit }
}

//! What a node hands out is posted.
ghost use Rattle.std.specs.Prelude.{◌≡◌, ◌≢◌, ℕ, ◌<◌, ◌^◌, ◌++◌, [], All, length};
ghost use Rattle.release_lanes.specs.Lanes.{SameLists};
ghost use Rattle.parcel_exchange.specs.Exchange.{PostsAll};
ghost use Rattle.parcel_exchange.specs.Mail.{parcels_of};

use event_chain::Chain;
use model_core::Event;
use release_lanes::{NodeEnd, Parcel};
use std::mem;

/// Posts these events to a node, unless there are none, and leaves none.
fn post<E: NodeEnd>(end: &mut E, number: u32, to: u32, events: &mut Chain<Event>)
    requires number { E.number end.old ≡ number }
    requires node { to < E.nodes end.old }
    requires free { E.is_free end.old to }
    ensures end { E.is_same end.old end.new }
    ensures sent { E.sent end.new to ≡ E.sent end.old to ++ parcels_of number events.old }
    ensures others { (other : ℕ) → other ≢ to → E.sent end.new other ≡ E.sent end.old other }
    ensures received { SameLists (E.received end.old) (E.received end.new) }
    ensures free { (other : ℕ) → other ≢ to → E.is_free end.old other → E.is_free end.new other }
    ensures none { events.new ≡ [] }
{
    if events.len() == 0 {
        return;
    }
    let parcel = Parcel {
        from: number,
        events: mem::replace(events, Chain::new()),
    };
    end.post(to, parcel);
}

/// Posts what a node hands out: the list at each place to the node of that number, unless it is empty. The lists are
/// left empty. It takes no memory.
pub fn post_all<E: NodeEnd>(end: &mut E, number: u32, out: &mut [Chain<Event>])
    requires number { E.number end.old ≡ number }
    requires nodes { E.nodes end.old ≡ length out.old }
    requires few { length out.old < 2 ^ 32 }
    requires free { (to : ℕ) → to < length out.old → E.is_free end.old to }
    ensures end { E.is_same end.old end.new }
    ensures sent { PostsAll (length out.old) number out.old (E.sent end.old) (E.sent end.new) }
    ensures received { SameLists (E.received end.old) (E.received end.new) }
    ensures none { All (λ events. events ≡ []) out.new }
{
    for to in 0..out.len() {
        post(end, number, to as u32, &mut out[to]);
    }
}

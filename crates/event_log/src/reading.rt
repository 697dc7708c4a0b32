//! The keys of carried events and news, read in their order.
ghost use Rattle.std.specs.Prelude.{◌≡◌, ◌<◌, ◌≤◌, ◌+◌, ◌^◌, [], ◌∷◌, ◌++◌, length, filter, map, nat_lt, vec_len, vec_capacity, IfSome, IfNone};
ghost use Rattle.key_order.specs.Ascending.{Ascends};
ghost use Rattle.object_log.specs.Carrying.{placed_key};
ghost use Rattle.object_log.specs.EventLogs.{done_key};
ghost use Rattle.event_log.specs.Reading.{IsWithin, NextKey, keys_from, own_key};

use crate::carried::Carried;
use crate::news::News;
use event_key::Key;

/// How many of the carried events and of the news were read.
#[derive(Clone, Copy)]
pub struct Reading {
    pub carried: usize,
    pub news: usize,
}

impl Reading {
    /// With one more of the news.
    fn with_news(self) -> Reading
        requires { self.news < usize.MAX }
        ensures { result ≡ record self { news = self.news + 1 } }
    {
        Reading {
            carried: self.carried,
            news: self.news + 1,
        }
    }

    /// With one more of the carried events.
    fn with_carried(self) -> Reading
        requires { self.carried < usize.MAX }
        ensures { result ≡ record self { carried = self.carried + 1 } }
    {
        Reading {
            carried: self.carried + 1,
            news: self.news,
        }
    }
}

/// Appends the keys below a horizon, in their order, to a list that has room for them.
pub fn push_below(carried: &Carried, news: &News, horizon: u64, into: &mut Vec<Key>)
    requires ordered { Ascends own_key (keys_from (record { carried = 0; news = 0 }) carried.now.items news.now.done) }
    requires room { vec_len into.old + length carried.now.items + length news.now.done ≤ vec_capacity into.old }
    ensures { into.new.items ≡ into.old.items ++ filter (λ k. nat_lt k.stamp horizon) (keys_from (record { carried = 0; news = 0 }) carried.now.items news.now.done) }
{
    let mut read = Reading {
        carried: 0,
        news: 0,
    };
    while let Some((key, next)) = next_key(carried, news, read) {
        if key.stamp >= horizon {
            return;
        }
        into.push_reserved(key);
        read = next;
    }
}

/// The least key of those that aren't read yet, and how many are read with it.
fn next_key(carried: &Carried, news: &News, read: Reading) -> Option<(Key, Reading)>
    requires { IsWithin read carried.now.items news.now.done }
    ensures some { IfSome result (λ next. NextKey read carried.now.items news.now.done next.0 next.1) }
    ensures none { IfNone result (keys_from read carried.now.items news.now.done ≡ []) }
{
    carried.tells();
    news.tells();
    if read.carried == carried.len() {
        if read.news == news.len() {
            return None;
        }
        return Some((news.key_at(read.news), read.with_news()));
    }
    let (key, _place) = carried.at(read.carried);
    if read.news == news.len() {
        return Some((key, read.with_carried()));
    }
    let fresh = news.key_at(read.news);
    if fresh.is_before(&key) {
        return Some((fresh, read.with_news()));
    }
    Some((key, read.with_carried()))
}

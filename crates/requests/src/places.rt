//! The places of a region: 12 words each, which hold a request.
ghost use Rattle.std.specs.Prelude.{◌≡◌, ◌++◌, ◌/◌, ◌≤◌, length, drop, replicate};
ghost use Rattle.std.specs.Iterator.{YieldsFirst, item_count};
ghost use Rattle.std.specs.Iterator.Runs.{YieldsInOrder};
ghost use Rattle.requests.specs.declared.Request.{Request as Row};
ghost use Rattle.requests.specs.Region.{request_of, requests_of, words_of, region_words};
ghost use Rattle.requests.specs.Calls.{overlapped_words, overlapped_from, carried, carry, remains};

use crate::tests::Test;
use crate::{Request, layout};
use std::marker::Model;

/// The words of a place.
pub(crate) type Place = [u32; layout::SIZE];

/// The request of a place; a word too large for its field is cut to the field's width.
#[tactic(auto, unfolding(crate::specs::Region::request_of))]
pub(crate) fn request_of(place: &Place) -> Request
    ensures { result ≡ request_of place.now }
{
    let [
        serial,
        player,
        kind,
        low,
        high,
        value,
        guard,
        overlapped,
        delivered,
        abandoned,
        first,
        second,
    ] = *place;
    Request {
        serial,
        player: (player % 256) as u8,
        kind: (kind % 256) as u8,
        low: (low % 256) as u8,
        high: (high % 65536) as u16,
        value,
        guard,
        overlapped: overlapped == 1,
        delivered: delivered == 1,
        abandoned: abandoned == 1,
        first,
        second,
    }
}

/// The words of a request.
pub(crate) fn words_of(request: &Request) -> Place
    ensures { result ≡ words_of request.now }
{
    [
        request.serial,
        request.player.into(),
        request.kind.into(),
        request.low.into(),
        request.high.into(),
        request.value,
        request.guard,
        request.overlapped.into(),
        request.delivered.into(),
        request.abandoned.into(),
        request.first,
        request.second,
    ]
}

/// The requests that are still to come, seen as their list.
#[derive(Drop)]
pub(crate) struct Requests<'a> {
    rest: &'a [u32],
}

impl<'a> Model for Requests<'a> {
    ghost use Rattle.std.specs.Prelude.{List};
    ghost use Rattle.requests.specs.declared.Request.{Request as Row};
    ghost use Rattle.requests.specs.Region.{requests_in};

    ghost Value = { List Row };

    ghost view = { λ s. requests_in s.rest.now };
}

impl<'a> Iterator for Requests<'a> {
    type Item = Request;

    ghost next_gives = { YieldsFirst (λ rest. rest) };

    ghost remaining = { item_count (λ rest. rest) };

    fn next(&mut self) -> Option<Request> {
        let (place, rest) = self.rest.split_first_chunk::<{ layout::SIZE }>()?;
        if place[0] == 0 {
            self.rest = &[];
            return None;
        }
        self.rest = rest;
        Some(request_of(place))
    }
}

/// The requests of a region, and none of one that is not whole.
pub(crate) fn requests_in(region: &[u32]) -> Requests<'_>
    ensures all { result ≡ requests_of region.now }
    ensures runs { YieldsInOrder (YieldsFirst {A = Row} (λ rest. rest)) (λ rest. rest) }
{
    if region.len() == layout::WORDS {
        return Requests { rest: region };
    }
    Requests { rest: &[] }
}

/// Marks the request of a place as overlapped if the test holds of it.
fn mark<T: Test>(place: &mut Place, test: &T)
    ensures { place.new ≡ overlapped_words (T.holds test.now) place.old }
{
    if test.holds(&request_of(place)) {
        place[layout::OVERLAPPED] = 1;
    }
}

/// Marks the requests of which the test holds as overlapped, up to the first place that is not used.
pub(crate) fn overlap<T: Test>(places: &mut [u32], test: &T)
    ensures { places.new ≡ overlapped_from (T.holds test.now) (length places.old / 12) places.old }
{
    let Some((place, rest)) = places.split_first_chunk_mut::<{ layout::SIZE }>() else {
        return;
    };
    if place[0] == 0 {
        return;
    }
    mark(place, test);
    overlap(rest, test);
}

/// Makes the first of these places hold `words`.
pub(crate) fn write_first(places: &mut [u32], words: &Place)
    requires { 12 ≤ length places.old }
    ensures { places.new ≡ words.now ++ drop 12 places.old }
{
    *places.first_chunk_mut().unwrap() = *words;
}

/// Takes the first of these places out: later ones move down by one, and the last becomes unused.
pub(crate) fn drop_first(places: &mut [u32])
    requires { 12 ≤ length places.old }
    ensures { places.new ≡ drop 12 places.old ++ replicate 12 0 }
{
    let n = places.len() - layout::SIZE;
    for i in 0..n {
        places[i] = places[i + layout::SIZE];
    }
    places[n..].fill(0);
}

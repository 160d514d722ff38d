//! The rules of the region, tested.
ghost use Rattle.std.specs.Prelude.{◌≡◌, ◌/◌, length};
ghost use Rattle.requests.specs.Region.{words_fit, places_hold};

use crate::places::{Place, request_of};
use crate::{Request, kinds, layout};
use store::words;

impl Request {
    ghost use Rattle.std.specs.Prelude.{◌≡◌};
    ghost use Rattle.requests.specs.Region.{guard_request_holds, read_holds, write_holds, load_holds, fields_hold, outcome_holds, request_holds};

    /// Whether the fields of a guard request keep the rules.
    fn guard_request_holds(self) -> bool
        ensures { result ≡ guard_request_holds self }
    {
        u16::from(self.low) < self.high
            && self.high <= 256
            && self.value == 0
            && self.guard == 0
            && !self.overlapped
    }

    /// Whether the fields of a read keep the rules.
    fn read_holds(self) -> bool
        ensures { result ≡ read_holds self }
    {
        self.high == 0 && self.value == 0
    }

    /// Whether the fields of a player's write keep the rules.
    fn write_holds(self) -> bool
        ensures { result ≡ write_holds self }
    {
        self.high == 0 && self.guard != 0
    }

    /// Whether the fields of a load keep the rules.
    fn load_holds(self) -> bool
        ensures { result ≡ load_holds self }
    {
        self.high == 0 && !self.overlapped && self.guard == store::layout::OPEN
    }

    /// Whether the fields that its kind has, and those that it lacks, keep the rules. The loader's is a write.
    #[tactic(auto, unfolding(crate::specs::Region::fields_hold))]
    fn fields_hold(self) -> bool
        ensures { result ≡ fields_hold self }
    {
        if self.player == layout::LOADER {
            return self.kind == kinds::WRITE && self.load_holds();
        }
        match self.kind {
            kinds::GUARD_REQUEST => self.guard_request_holds(),
            kinds::READ => self.read_holds(),
            kinds::WRITE => self.write_holds(),
            _ => false,
        }
    }

    /// Whether its outcome keeps the rules.
    #[tactic(auto, unfolding(crate::specs::Region::outcome_holds))]
    fn outcome_holds(self, last: u32) -> bool
        ensures { result ≡ outcome_holds last self }
    {
        if !self.delivered {
            return self.first == 0 && self.second == 0;
        }
        if self.abandoned {
            return false;
        }
        if self.kind == kinds::READ {
            return self.first <= last;
        }
        1 <= self.first && self.first <= 2 && self.second == 0
    }

    /// Whether it keeps the rules.
    #[tactic(auto, unfolding(crate::specs::Region::request_holds))]
    fn holds(self, last: u32) -> bool
        ensures { result ≡ request_holds last self }
    {
        self.serial <= last
            && self.player <= layout::LOADER
            && self.guard < self.serial
            && self.fields_hold()
            && self.outcome_holds(last)
    }
}

/// Whether the words of a place fit their fields: player, kind, low, high and the three marks.
#[tactic(auto, unfolding(crate::specs::Region::words_fit))]
fn words_fit(place: &Place) -> bool
    ensures { result ≡ words_fit place.now }
{
    place[layout::PLAYER] <= u32::from(layout::LOADER)
        && place[layout::KIND] <= 255
        && place[layout::LOW] <= 255
        && place[layout::HIGH] <= 65535
        && place[layout::OVERLAPPED] <= 1
        && place[layout::DELIVERED] <= 1
        && place[layout::ABANDONED] <= 1
}

/// Whether the places keep the rules, where the request before them has the serial `before`.
pub(crate) fn places_hold(places: &[u32], before: u32, last: u32) -> bool
    ensures { result ≡ places_hold last before (length places.now / 12) places.now }
{
    let Some((place, rest)) = places.split_first_chunk::<{ layout::SIZE }>() else {
        return true;
    };
    let serial = place[0];
    if serial == 0 {
        return words::are_zero(places);
    }
    before < serial
        && words_fit(place)
        && request_of(place).holds(last)
        && places_hold(rest, serial, last)
}

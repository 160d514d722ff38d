//! A player's number that keeps its rule.
ghost use Rattle.std.specs.Prelude.{◌≡◌, ◌+◌, ◌*◌, ◌≤◌, ◌<◌};

use crate::layout;
use std::marker::Model;
use store::Refusal;

/// One of the eight players.
#[derive(Clone, Copy, Debug, PartialEq, Eq)]
pub struct Player {
    number: u8,
}

impl Model for Player {
    ghost use Rattle.std.specs.Prelude.{ℕ, ◌<◌};

    ghost Value = { ℕ };

    ghost view = { λ p. p.number };

    ghost invariant = { λ p. p.number < 8 };

    ghost inverse = { λ n. record { number = n } };
}

impl TryFrom<u8> for Player {
    ghost use Rattle.players.specs.Arguments.{player_of};

    type Error = Refusal;

    ghost try_from_gives = { λ n p. p ≡ player_of n };

    fn try_from(number: u8) -> Result<Player, Refusal> {
        if number > layout::LAST_PLAYER {
            return Err(Refusal::OutOfRange);
        }
        Ok(Player { number })
    }
}

impl From<Player> for u8 {
    ghost from_gives = { λ p n. n ≡ p };

    fn from(player: Player) -> u8 {
        player.number
    }
}

impl From<Player> for u32 {
    ghost from_gives = { λ p n. n ≡ p };

    fn from(player: Player) -> u32 {
        u32::from(player.number)
    }
}

impl Player {
    /// The player's first cell, in a region with a word for each player and entry.
    pub fn row(self) -> usize
        ensures row { result ≡ self * 256 }
        ensures within { result + 256 ≤ 2048 }
    {
        usize::from(self.number) * layout::ENTRIES
    }

    /// The player's cell for the entry.
    pub fn cell(self, entry: u8) -> usize
        ensures cell { result ≡ self * 256 + entry }
        ensures within { result < 2048 }
    {
        self.row() + usize::from(entry)
    }
}

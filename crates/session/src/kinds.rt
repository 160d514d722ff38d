//! The kinds of steps in force: of each its number, its map and its fields. A new kind is a line of each list here.
ghost use Rattle.std.specs.Prelude.{◌≡◌, ◌≤◌, length};
ghost use Rattle.players.specs.Kinds.{map_of, step_of, kind, numbers_of};
ghost use Rattle.session.specs.Layout.{widths, fields};
ghost use Rattle.session.specs.Fields.{numbers};
ghost use Rattle.session.specs.Kinds.{code_of, kind_of};

use crate::Fields;
use crate::reader::Reader;
use players::Step;
use store::{Range, Refusal};

/// What a step is, by the numbers of docs/RULES.md.
#[derive(Clone, Copy, Debug, PartialEq, Eq, Hash)]
pub enum Kind {
    Assign = 1,
    Release = 2,
    RequestGuard = 3,
    Read = 4,
    Write = 5,
    Deliver = 6,
    Respond = 7,
    Abandon = 8,
    Lose = 9,
    Split = 10,
    Merge = 11,
    RestartTablet = 12,
    RestartPlayer = 13,
    FindInterval = 14,
    Load = 15,
}

impl TryFrom<u8> for Kind {
    type Error = Refusal;

    ghost try_from_gives = { λ code r. r ≡ kind_of code };

    fn try_from(code: u8) -> Result<Kind, Refusal> {
        match code {
            1 => Ok(Kind::Assign),
            2 => Ok(Kind::Release),
            3 => Ok(Kind::RequestGuard),
            4 => Ok(Kind::Read),
            5 => Ok(Kind::Write),
            6 => Ok(Kind::Deliver),
            7 => Ok(Kind::Respond),
            8 => Ok(Kind::Abandon),
            9 => Ok(Kind::Lose),
            10 => Ok(Kind::Split),
            11 => Ok(Kind::Merge),
            12 => Ok(Kind::RestartTablet),
            13 => Ok(Kind::RestartPlayer),
            14 => Ok(Kind::FindInterval),
            15 => Ok(Kind::Load),
            _ => Err(Refusal::UnknownKind),
        }
    }
}

impl From<Kind> for u8 {
    ghost from_gives = { λ k code. code ≡ code_of k };

    fn from(kind: Kind) -> u8 {
        kind as u8
    }
}

impl From<Step> for Kind {
    ghost from_gives = { λ x k. code_of k ≡ kind x };

    fn from(step: Step) -> Kind {
        match step {
            Step::Assign { .. } => Kind::Assign,
            Step::Release { .. } => Kind::Release,
            Step::RequestGuard { .. } => Kind::RequestGuard,
            Step::Read { .. } => Kind::Read,
            Step::Write { .. } => Kind::Write,
            Step::Deliver { .. } => Kind::Deliver,
            Step::Respond { .. } => Kind::Respond,
            Step::Abandon { .. } => Kind::Abandon,
            Step::Lose { .. } => Kind::Lose,
            Step::Split { .. } => Kind::Split,
            Step::Merge { .. } => Kind::Merge,
            Step::RestartTablet { .. } => Kind::RestartTablet,
            Step::RestartPlayer { .. } => Kind::RestartPlayer,
            Step::FindInterval { .. } => Kind::FindInterval,
            Step::Load { .. } => Kind::Load,
        }
    }
}

impl Kind {
    /// The map of its records.
    #[tactic(auto, unfolding(players::specs::Kinds::map_of))]
    pub fn map(self) -> u8
        ensures { result ≡ map_of (code_of self) }
    {
        match self {
            Kind::Assign | Kind::RequestGuard => 0x0F,
            Kind::Release => 0x0D,
            Kind::Read => 0x07,
            Kind::Write => 0x17,
            Kind::Deliver | Kind::Respond | Kind::Abandon | Kind::Lose => 0x21,
            Kind::Split | Kind::Merge | Kind::RestartTablet | Kind::FindInterval => 0x05,
            Kind::RestartPlayer => 0x03,
            Kind::Load => 0x15,
        }
    }

    /// The step of this kind whose record stands at the start of the part.
    #[tactic(auto, unfolding(players::specs::Kinds::step_of, players::specs::Kinds::map_of, crate::specs::Layout::fields))]
    #[inline(always)]
    pub(crate) fn step(self, part: &[u8]) -> Step
        requires { 2 ≤ length part.now }
        ensures { result ≡ step_of (code_of self) (fields widths (map_of (code_of self)) part.now 1) }
    {
        let mut fields = Reader::new(&part[2..]);
        match self {
            Kind::Assign => Step::Assign {
                player: fields.take(),
                range: Range {
                    low: fields.take(),
                    high: fields.take(),
                },
            },
            Kind::Release => Step::Release {
                range: Range {
                    low: fields.take(),
                    high: fields.take(),
                },
            },
            Kind::RequestGuard => Step::RequestGuard {
                player: fields.take(),
                range: Range {
                    low: fields.take(),
                    high: fields.take(),
                },
            },
            Kind::Read => Step::Read {
                player: fields.take(),
                entry: fields.take(),
            },
            Kind::Write => Step::Write {
                player: fields.take(),
                entry: fields.take(),
                value: fields.take(),
            },
            Kind::Deliver => Step::Deliver {
                serial: fields.take(),
            },
            Kind::Respond => Step::Respond {
                serial: fields.take(),
            },
            Kind::Abandon => Step::Abandon {
                serial: fields.take(),
            },
            Kind::Lose => Step::Lose {
                serial: fields.take(),
            },
            Kind::Split => Step::Split {
                entry: fields.take(),
            },
            Kind::Merge => Step::Merge {
                entry: fields.take(),
            },
            Kind::RestartTablet => Step::RestartTablet {
                entry: fields.take(),
            },
            Kind::RestartPlayer => Step::RestartPlayer {
                player: fields.take(),
            },
            Kind::FindInterval => Step::FindInterval {
                entry: fields.take(),
            },
            Kind::Load => Step::Load {
                entry: fields.take(),
                value: fields.take(),
            },
        }
    }
}

impl From<Step> for Fields {
    ghost from_gives = { λ x f. numbers f ≡ numbers_of x };

    #[tactic(auto, unfolding(players::specs::Kinds::spread, players::specs::Kinds::map_of))]
    fn from(step: Step) -> Fields {
        let none = Fields {
            kind: u8::from(Kind::from(step)),
            ..Fields::default()
        };
        match step {
            Step::Assign { player, range } | Step::RequestGuard { player, range } => Fields {
                player,
                entry: range.low,
                high: range.high,
                ..none
            },
            Step::Release { range } => Fields {
                entry: range.low,
                high: range.high,
                ..none
            },
            Step::Read { player, entry } => Fields {
                player,
                entry,
                ..none
            },
            Step::Write {
                player,
                entry,
                value,
            } => Fields {
                player,
                entry,
                value,
                ..none
            },
            Step::Deliver { serial }
            | Step::Respond { serial }
            | Step::Abandon { serial }
            | Step::Lose { serial } => Fields { serial, ..none },
            Step::Split { entry }
            | Step::Merge { entry }
            | Step::RestartTablet { entry }
            | Step::FindInterval { entry } => Fields { entry, ..none },
            Step::RestartPlayer { player } => Fields { player, ..none },
            Step::Load { entry, value } => Fields {
                entry,
                value,
                ..none
            },
        }
    }
}

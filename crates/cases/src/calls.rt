// The calls that a line can name, by its first letter.
use crate::tables::Tables;
use crate::{line, trial};
use players::Step;
use session::{Fields, records};
use std::fmt;
use std::io::{self, Write};

// A call, with what its numbers say; those that the line lacks are 0, and each is cut to the width of its field.
#[derive(Clone, Copy)]
enum Call {
    // `fresh`: the tables are made fresh.
    Fresh,
    // `take KIND PLAYER ENTRY HIGH VALUE SERIAL`: a step, by its fields, those that its kind lacks 0.
    Take(Step),
    // `keep KIND PLAYER ENTRY HIGH VALUE SERIAL`: a step, and whether each table is what it was.
    Keep(Step),
    // `ahead KIND PLAYER ENTRY HIGH VALUE SERIAL`: a preview of a step, and whether each table is what it was.
    Ahead(Step),
    // `check`: a test of the tables, a run over a session without records and its preview, and whether each table is what it was.
    Check,
    // `memory PLAYER`: the share of the player's reads that came from memory.
    Memory { player: u8 },
    // `reads TIMES PLAYER`: the player, 0 where none is named, reads entry 0 so many times; nothing is printed.
    Reads { times: u32, player: u8 },
    // `store PLACE WORD`, `players PLACE WORD`: a word of a table is changed.
    Store { place: u32, word: u32 },
    Players { place: u32, word: u32 },
    // `lend STORE PLAYERS`: so many words of each table are lent.
    Lend { store: u32, players: u32 },
    // `# ..`, or an empty line, is passed over.
    Remark,
}

// Why a line makes no call.
#[derive(Clone, Copy)]
enum Unmade {
    // No call has this letter.
    NoCall,
    // No step has this kind.
    NoStep,
}

impl fmt::Display for Unmade {
    fn fmt<W: fmt::Write>(&self, f: &mut fmt::Formatter<W>) -> fmt::Result {
        match self {
            Unmade::NoCall => f.write_str("no call"),
            Unmade::NoStep => f.write_str("no step"),
        }
    }
}

// The step whose fields are these numbers.
fn step_of([kind, player, entry, high, value, serial]: [u32; 6]) -> Result<Step, Unmade> {
    let fields = Fields {
        kind: (kind % 256) as u8,
        player: (player % 256) as u8,
        entry: (entry % 256) as u8,
        high: (high % 65536) as u16,
        value,
        serial,
    };
    match records::of_fields(fields) {
        Ok(record) => Ok(record.step),
        Err(_) => Err(Unmade::NoStep),
    }
}

impl TryFrom<&[u8]> for Call {
    type Error = Unmade;

    fn try_from(text: &[u8]) -> Result<Call, Unmade> {
        let Some((letter, rest)) = text.split_first() else {
            return Ok(Call::Remark);
        };
        let numbers = line::numbers(rest);
        let [first, second, ..] = numbers;
        match letter {
            b'f' => Ok(Call::Fresh),
            b't' => Ok(Call::Take(step_of(numbers)?)),
            b'k' => Ok(Call::Keep(step_of(numbers)?)),
            b'a' => Ok(Call::Ahead(step_of(numbers)?)),
            b'c' => Ok(Call::Check),
            b'm' => Ok(Call::Memory {
                player: (first % 256) as u8,
            }),
            b'r' => Ok(Call::Reads {
                times: first,
                player: (second % 256) as u8,
            }),
            b's' => Ok(Call::Store {
                place: first,
                word: second,
            }),
            b'p' => Ok(Call::Players {
                place: first,
                word: second,
            }),
            b'l' => Ok(Call::Lend {
                store: first,
                players: second,
            }),
            b'#' | b'\n' => Ok(Call::Remark),
            _ => Err(Unmade::NoCall),
        }
    }
}

// Makes a call, and prints it.
fn make<W: Write>(out: &mut W, call: Call, tables: &mut Tables) -> io::Result<()> {
    match call {
        Call::Fresh => trial::fresh(out, tables),
        Call::Take(step) => trial::step(out, tables, step),
        Call::Keep(step) => trial::same_step(out, tables, step),
        Call::Ahead(step) => trial::same_preview(out, tables, step),
        Call::Check => trial::same_check(out, tables),
        Call::Memory { player } => trial::share(out, tables, player),
        Call::Reads { times, player } => {
            trial::reads(tables, times, player);
            Ok(())
        }
        Call::Store { place, word } => trial::put(out, &mut tables.store, place, word),
        Call::Players { place, word } => trial::put(out, &mut tables.players, place, word),
        Call::Lend { store, players } => trial::same_part(out, tables, store, players),
        Call::Remark => Ok(()),
    }
}

// Makes the call of a line: zero bytes before it are passed over, a heading (`- ..`) is printed as it stands, and a line with no end makes no call.
pub(crate) fn play<W: Write>(out: &mut W, line: &[u8], tables: &mut Tables) -> io::Result<()> {
    let text = line::begun(line);
    match text {
        [b'-', ..] => out.write_all(text),
        [.., b'\n'] => match Call::try_from(text) {
            Ok(call) => make(out, call, tables),
            Err(why) => writeln!(out, "{why}"),
        },
        _ => Ok(()),
    }
}

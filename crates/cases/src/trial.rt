// Calls tried and shown, a line for each.
use crate::show;
use crate::tables::Tables;
use players::Step;
use std::io::{self, Write};
use steps::{previews, running};

// Makes the tables fresh.
pub(crate) fn fresh<W: Write>(out: &mut W, tables: &mut Tables) -> io::Result<()> {
    fresh_shown(out, &mut tables.store, &mut tables.players)?;
    writeln!(out)
}

// Takes a step.
pub(crate) fn step<W: Write>(out: &mut W, tables: &mut Tables, next: Step) -> io::Result<()> {
    step_shown(out, &mut tables.store, &mut tables.players, next)?;
    writeln!(out)
}

// The share of the player's reads that came from memory.
pub(crate) fn share<W: Write>(out: &mut W, tables: &Tables, player: u8) -> io::Result<()> {
    share_shown(out, &tables.store, &tables.players, player)?;
    writeln!(out)
}

// The player reads entry 0 so many times; nothing is shown.
pub(crate) fn reads(tables: &mut Tables, times: u32, player: u8) {
    let read = Step::Read { player, entry: 0 };
    for _ in 0..times {
        let _ = steps::step(&mut tables.store, &mut tables.players, read);
    }
}

// Shows calls, and says of each table whether it is what it was.
fn compared<W: Write, F: FnOnce(&mut W, &mut Tables) -> io::Result<()>>(
    out: &mut W,
    tables: &mut Tables,
    shown: F,
) -> io::Result<()>
    requires { F.IsAlwaysCallable shown }
{
    let before = *tables;
    shown(out, tables)?;
    show::same(out, &tables.store, &before.store)?;
    show::same(out, &tables.players, &before.players)?;
    writeln!(out)
}

// Takes a step, and says whether each table is what it was.
pub(crate) fn same_step<W: Write>(out: &mut W, tables: &mut Tables, next: Step) -> io::Result<()> {
    compared(out, tables, |out, tables| {
        step_shown(out, &mut tables.store, &mut tables.players, next)
    })
}

// Previews a step, and says whether each table is what it was.
pub(crate) fn same_preview<W: Write>(
    out: &mut W,
    tables: &mut Tables,
    next: Step,
) -> io::Result<()> {
    compared(out, tables, |out, tables| {
        preview_shown(out, &tables.store, &tables.players, next)
    })
}

// Tests the tables, runs over a session without records and previews that, and says whether each table is what it was.
pub(crate) fn same_check<W: Write>(out: &mut W, tables: &mut Tables) -> io::Result<()> {
    compared(out, tables, tests_shown)
}

// What the tables' test replies, and what a run over a session without records, its mark alone, reports, and its preview.
fn tests_shown<W: Write>(out: &mut W, tables: &mut Tables) -> io::Result<()> {
    let session = b"RSL1";
    let mut replies = [0u32; 3];
    let (store, players) = (&mut tables.store, &mut tables.players);
    write!(out, "check")?;
    show::reply(out, players::check(store, players).into())?;
    write!(out, ", run")?;
    show::report(out, running::run(store, players, session, 1, &mut replies))?;
    write!(out, ", ahead run")?;
    show::report(
        out,
        previews::preview_run(store, players, session, 1, &mut replies),
    )
}

// Makes the tables fresh, and shows the reply.
fn fresh_shown<W: Write>(out: &mut W, store: &mut [u32], players: &mut [u32]) -> io::Result<()> {
    write!(out, "fresh")?;
    show::reply(out, players::fresh(store, players).into())
}

// A step and its reply.
fn step_shown<W: Write>(
    out: &mut W,
    store: &mut [u32],
    players: &mut [u32],
    next: Step,
) -> io::Result<()> {
    show::step(out, next)?;
    show::reply(out, steps::step(store, players, next).into())
}

// A step and the reply that it would get.
fn preview_shown<W: Write>(
    out: &mut W,
    store: &[u32],
    players: &[u32],
    next: Step,
) -> io::Result<()> {
    write!(out, "ahead ")?;
    show::step(out, next)?;
    show::reply(out, previews::preview(store, players, next).into())
}

// A player and the share of its reads that came from memory.
fn share_shown<W: Write>(
    out: &mut W,
    store: &[u32],
    players: &[u32],
    player: u8,
) -> io::Result<()> {
    write!(out, "memory {player}")?;
    show::reply(out, players::share(store, players, player).into())
}

// Lends the first words alone, of tables in which every word is 7, and says whether each table is what it was.
pub(crate) fn same_part<W: Write>(
    out: &mut W,
    tables: &mut Tables,
    first: u32,
    second: u32,
) -> io::Result<()> {
    tables.fill(7);
    compared(out, tables, |out, tables| {
        write!(out, "words {first} {second}")?;
        part_shown(out, tables, first as usize, second as usize)
    })
}

// Calls on the first words of each table, where it has so many.
fn part_shown<W: Write>(out: &mut W, tables: &mut Tables, n: usize, m: usize) -> io::Result<()> {
    let (Some(store), Some(players)) = (tables.store.get_mut(..n), tables.players.get_mut(..m))
    else {
        return Ok(());
    };
    write!(out, ", ")?;
    fresh_shown(out, store, players)?;
    write!(out, ", ")?;
    step_shown(out, store, players, Step::Split { entry: 9 })?;
    write!(out, ", ")?;
    step_shown(out, store, players, Step::FindInterval { entry: 9 })?;
    write!(out, ", ")?;
    preview_shown(out, store, players, Step::Split { entry: 9 })?;
    write!(out, ", ")?;
    share_shown(out, store, players, 0)
}

// Puts a word into a table, where it has the place.
pub(crate) fn put<W: Write>(
    out: &mut W,
    table: &mut [u32],
    place: u32,
    word: u32,
) -> io::Result<()> {
    if let Some(old) = table.get_mut(place as usize) {
        *old = word;
        writeln!(out, "word {place} becomes {word}")?;
    }
    Ok(())
}

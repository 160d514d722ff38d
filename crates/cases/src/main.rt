// Tries the edges of the documents at run time, on real tables. Standard input has the calls, one to a line; each is printed with its reply,
// and where a call may change nothing, the two tables are compared with what they were, word by word. The file stdout has the replies that
// they demand, worked out by hand.
#![tactic(auto)]

mod calls;
mod line;
mod show;
mod tables;
mod trial;

use crate::tables::Tables;
use std::io::{self, Read, Write};

// Room for the calls.
const ROOM: usize = 12288;

// Takes the calls of a text in turn, and prints each.
fn play<W: Write>(out: &mut W, text: &[u8], tables: &mut Tables) -> io::Result<()> {
    for line in text.split_inclusive(|byte| *byte == b'\n') {
        calls::play(out, line, tables)?;
    }
    Ok(())
}

fn main(rt: HostRuntime) -> io::Result<()> {
    let mut text = [0u8; ROOM];
    let mut room: &mut [u8] = &mut text;
    let read = io::copy(&mut rt.stdin().take(ROOM as u64), &mut room)?;
    let mut tables = Tables {
        store: [0; tables::STORE],
        players: [0; tables::PLAYERS],
    };
    let text = &text[..ROOM.min(read as usize)];
    play(&mut rt.stdout(), text, &mut tables)
}

// Reads a session on standard input and prints its listing.
#![tactic(auto)]

ghost use Rattle.std.specs.Prelude.{◌≡◌, ◌++◌, ◌+◌, ◌*◌, ◌≤◌, length, take};
ghost use Rattle.session.specs.Listing.{header, reply_line, reply_lines, end_line, printed};
ghost use Rattle.session.specs.Reports.{reported};
ghost use Rattle.session.specs.Text.{Puts};
ghost use Rattle.steps.specs.RunCalls.{reply_at, replies_from};

use session::{Report, sizes};
use std::io::{self, Read, Write};
use store::Reply;

// The budget of the run, and the places of its list for replies.
const BUDGET: u32 = 16384;

const PLACES: usize = 5460;

// Room for the longest listing.
const ROOM: usize = 240304;

// One byte more than the longest session: what is longer is refused, whatever follows.
const MOST_READ: usize = sizes::LONGEST + 1;

// Puts the line of a step: its ordinal, and the reply that these words are.
fn reply_line(ordinal: u32, words: &[u32; sizes::REPLY], out: &mut [u8], at: usize) -> usize
    requires { at + 44 ≤ length out.old }
    ensures { Puts (reply_line ordinal (reply_at words.now 0)) 44 at out.old out.new result }
{
    let [code, a, b] = *words;
    let reply = Reply { code, a, b };
    at + session::listing::reply_line(ordinal, reply, &mut out[at..]).unwrap_or(0) as usize
}

// Puts the last line.
fn end_line(report: Report, out: &mut [u8], at: usize) -> usize
    requires { at + 37 ≤ length out.old }
    ensures { Puts (end_line (reported report)) 37 at out.old out.new result }
{
    let put = session::listing::end_line(
        report.why.into(),
        report.records,
        report.place,
        &mut out[at..],
    );
    at + put.unwrap_or(0) as usize
}

// Puts the lines of a run: the header, the replies and the last line.
fn lines(report: Report, replies: &[u32], out: &mut [u8]) -> usize
    requires { (3 * report.records ≤ length replies.now) × (44 * report.records + 51 ≤ length out.old) }
    ensures { (result ≤ length out.new) × (take result out.new ≡ header ++ (reply_lines 1 (replies_from replies.now 0 report.records) ++ end_line (reported report))) }
{
    let mut at = session::listing::header(out).unwrap_or(0) as usize;
    let (places, _) = replies.as_chunks::<{ sizes::REPLY }>();
    for (i, words) in places[..report.records as usize].iter().enumerate() {
        at = reply_line(i as u32 + 1, words, out, at);
    }
    end_line(report, out, at)
}

// Puts the listing of a session.
fn list(session: &[u8], out: &mut [u8]) -> usize
    requires { 240304 ≤ length out.old }
    ensures { (result ≤ length out.new) × (take result out.new ≡ printed session.now) }
{
    let mut store = [0u32; store::layout::WORDS];
    let mut players = [0u32; players::layout::WORDS];
    let mut replies = [0u32; PLACES * sizes::REPLY];
    let _ = players::fresh(&mut store, &mut players);
    let report = steps::running::run(&mut store, &mut players, session, BUDGET, &mut replies);
    lines(report, &replies, out)
}

fn main(rt: HostRuntime) -> io::Result<()> {
    let mut session = [0u8; MOST_READ];
    let mut room: &mut [u8] = &mut session;
    let read = io::copy(&mut rt.stdin().take(MOST_READ as u64), &mut room)?;
    let mut out = [0u8; ROOM];
    let n = list(&session[..MOST_READ.min(read as usize)], &mut out);
    rt.stdout().write_all(&out[..n])
}

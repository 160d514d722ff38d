// The two tables.
pub(crate) const STORE: usize = store::layout::WORDS;

pub(crate) const PLAYERS: usize = players::layout::WORDS;

#[derive(Clone, Copy)]
pub(crate) struct Tables {
    pub store: [u32; STORE],
    pub players: [u32; PLAYERS],
}

impl Tables {
    // Makes every word this one, in place: whole tables by value would stand on the stack a second time.
    pub(crate) fn fill(&mut self, word: u32) {
        self.store.fill(word);
        self.players.fill(word);
    }
}

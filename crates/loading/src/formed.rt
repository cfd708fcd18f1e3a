// Bytes that are read as a game stored in a form, and whether they have the form: refusal 13.
ghost use Rattle.std.specs.Prelude.{◌≡◌, ◌+◌, ◌*◌, ◌≤◌, ◌<◌, length, not};
ghost use Rattle.numbers.specs.Numbers.{half_limit};
ghost use Rattle.numbers.specs.Counting.{all_below, all_from};
ghost use Rattle.stored_games.specs.Forms.{byte_bits};
ghost use Rattle.stored_games.specs.Stored.{game_header_bytes, count_bytes};
ghost use Rattle.stored_games.specs.Reading.{counts_in, list_end, parts_of, record_at};
ghost use Rattle.stored_games.specs.Reading.{counts_formed, parts_formed, record_formed, signal_in, is_formed};
ghost use Rattle.loading.specs.Places.{place_limit, SmallCounts, SmallParts, ClearFrom};

use crate::fields::{byte_at, record_formed, signal_in};
use kinds::Counts;
use layout::{MOST_COUNTERS, MOST_ROUTINES};
use lines::MOST_ENTRIES;
use numbers::half_at;
use stored_games::{BYTE_BITS, COUNT_BYTES, GAME_HEADER_BYTES, Parts, UsableForm};

// Bytes that are read as a game stored in a form.
#[derive(Clone, Copy)]
pub struct StoredBytes<'a> {
    pub form: UsableForm,
    pub bytes: &'a [u8],
}

impl<'a> StoredBytes<'a> {
    // The header's R, E and C.
    pub fn counts(&self) -> Counts
        ensures { (result ≡ counts_in self.now.bytes.now) × SmallCounts result }
    {
        Counts {
            routines: half_at(self.bytes, 2),
            signals: half_at(self.bytes, 4),
            counters: half_at(self.bytes, 6),
        }
    }

    // Where a list ends that begins at a place.
    fn list_end(&self, from: usize) -> usize
        requires { from < place_limit }
        ensures { (result ≡ list_end self.now.bytes.now from) × (result < from + count_bytes + half_limit) }
    {
        from + COUNT_BYTES + half_at(self.bytes, from)
    }

    // Where the parts begin.
    #[tactic(auto, unfolding(stored_games::specs::Reading::parts_of))]
    pub fn parts(&self) -> Parts
        ensures { (result ≡ parts_of self.now.form.form self.now.bytes.now) × SmallParts result }
    {
        let counts = self.counts();
        let listed = self.form.lists_from(counts);
        let starting = self.list_end(listed);
        let broadcast = self.list_end(starting);
        Parts {
            counters: self.form.counters_from(counts),
            listed,
            starting,
            broadcast,
            end: broadcast + self.form.form.setsize,
        }
    }

    // The record of a routine.
    pub fn record(&self, routine: usize) -> &'a [u8]
        requires small { routine < half_limit }
        requires in_bounds { game_header_bytes + self.now.form.form.recordsize * routine + self.now.form.form.recordsize
            ≤ length self.now.bytes.now }
        ensures { result.now ≡ record_at self.now.form.form self.now.bytes.now routine }
    {
        let from = self.form.record_from(routine);
        let to = from + self.form.form.recordsize;
        &self.bytes[from..to]
    }

    // Whether the form's number and R, E and C are right.
    #[tactic(auto, unfolding(stored_games::specs::Reading::counts_formed))]
    fn counts_formed(&self) -> bool
        ensures { result ≡ counts_formed self.now.form.form self.now.bytes.now }
    {
        let counts = self.counts();
        half_at(self.bytes, 0) == self.form.form.number
            && 1 <= counts.routines
            && counts.routines <= MOST_ROUTINES
            && counts.signals <= self.form.form.mostsignals
            && counts.counters <= MOST_COUNTERS
    }

    // Whether the offsets, the lengths of the lists and the length of all are right.
    #[tactic(auto, unfolding(stored_games::specs::Reading::parts_formed))]
    fn parts_formed(&self) -> bool
        ensures { result ≡ parts_formed self.now.form.form self.now.bytes.now }
    {
        let parts = self.parts();
        half_at(self.bytes, 8) == GAME_HEADER_BYTES
            && half_at(self.bytes, 10) == parts.counters
            && half_at(self.bytes, 12) == parts.listed
            && half_at(self.bytes, parts.listed) <= MOST_ENTRIES
            && half_at(self.bytes, parts.starting) <= MOST_ENTRIES
            && self.bytes.len() == parts.end
    }

    // Whether the stages and flags of so many records are right.
    fn records_formed(&self, count: usize) -> bool
        requires small { count < half_limit }
        requires in_bounds { game_header_bytes + self.now.form.form.recordsize * count ≤ length self.now.bytes.now }
        ensures { result ≡ all_below count (λ i. record_formed (record_at self.now.form.form self.now.bytes.now i)) }
    {
        for routine in 0..count {
            if !record_formed(self.record(routine)) {
                return false;
            }
        }
        true
    }

    // How many bits from one of them on are seen at once not to be set: all of a byte that begins with it and is 0, or that bit, or none.
    fn clear_from(&self, from: usize, at: usize) -> usize
        requires { (from < place_limit) × (at < place_limit) }
        ensures { ClearFrom (signal_in self.now.bytes.now from) at result }
    {
        if at % BYTE_BITS == 0 && byte_at(self.bytes, from + at / BYTE_BITS) == 0 {
            return BYTE_BITS;
        }
        if signal_in(self.bytes, from, at) {
            0
        } else {
            1
        }
    }

    // Whether no bit beyond the signals is set. A `while`: what is clear ends anywhere in a byte, and a `for` goes on bit by bit.
    fn set_formed(&self, from: usize, signals: usize) -> bool
        requires { from < place_limit }
        ensures { result ≡ all_from signals (self.now.form.form.setsize * byte_bits) (λ e. not (signal_in self.now.bytes.now from e)) }
    {
        let all = self.form.form.setsize * BYTE_BITS;
        let mut at = signals;
        while at < all {
            let clear = self.clear_from(from, at);
            if clear == 0 {
                return false;
            }
            at += clear;
        }
        true
    }

    // Whether bytes have the form.
    #[tactic(auto, unfolding(stored_games::specs::Reading::is_formed))]
    pub fn is_formed(&self) -> bool
        ensures { result ≡ is_formed self.now.form.form self.now.bytes.now }
    {
        let counts = self.counts();
        self.counts_formed()
            && self.parts_formed()
            && self.records_formed(counts.routines)
            && self.set_formed(self.parts().broadcast, counts.signals)
    }
}

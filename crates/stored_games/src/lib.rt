#![tactic(auto)]
// The forms in which a game is kept as bytes. Document 02, Paper 2.
ghost use Rattle.std.specs.Prelude.{◌≡◌, ◌+◌, ◌*◌, ◌<◌};
ghost use Rattle.numbers.specs.Numbers.{half_limit};
ghost use Rattle.stored_games.specs.Forms.{Usable, form1};
ghost use Rattle.stored_games.specs.Stored.{game_header_bytes, counters_from, lists_from};

use kinds::Counts;

// The bytes of the header, of the fields of a routine's record, of a counter and of a list's count.
pub const GAME_HEADER_BYTES: usize = 14;

pub const FIELD_BYTES: usize = 8;

pub const COUNTER_BYTES: usize = 4;

pub const COUNT_BYTES: usize = 2;

// The signals in a byte.
pub const BYTE_BITS: usize = 8;

// A form: its number, the bytes of a record and of the set of signals to broadcast, and the most signals that it holds.
#[derive(Clone, Copy)]
pub struct Form {
    pub number: usize,
    pub recordsize: usize,
    pub setsize: usize,
    pub mostsignals: usize,
}

// A form that games are stored in and read from.
#[derive(Clone, Copy)]
pub struct UsableForm {
    pub form: Form,
    pub ghost usable: { Usable form },
}

// Where the parts of a stored game behind its records begin, and where the last one ends.
#[derive(Clone, Copy)]
pub struct Parts {
    pub counters: usize,
    pub listed: usize,
    pub starting: usize,
    pub broadcast: usize,
    pub end: usize,
}

impl UsableForm {
    // Where the record of a routine begins.
    pub fn record_from(self, routine: usize) -> usize
        requires { routine < half_limit }
        ensures { result ≡ game_header_bytes + self.form.recordsize * routine }
    {
        GAME_HEADER_BYTES + self.form.recordsize * routine
    }

    // Where the counters begin.
    pub fn counters_from(self, counts: Counts) -> usize
        requires { counts.routines < half_limit }
        ensures { result ≡ counters_from self.form counts }
    {
        self.record_from(counts.routines)
    }

    // Where the lists begin.
    pub fn lists_from(self, counts: Counts) -> usize
        requires { (counts.routines < half_limit) × (counts.counters < half_limit) }
        ensures { result ≡ lists_from self.form counts }
    {
        self.counters_from(counts) + COUNTER_BYTES * counts.counters
    }
}

// Form 1.
pub fn form_1() -> UsableForm
    ensures { result.form ≡ form1 }
{
    UsableForm {
        form: Form {
            number: 1,
            recordsize: 8,
            setsize: 8,
            mostsignals: 64,
        },
    }
}

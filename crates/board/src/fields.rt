// A board that passed rows 1 to 9 of the refusal table, and one accessor a field: its word, with its range.
ghost use Rattle.std.specs.Prelude.{◌≡◌, ◌+◌, ◌-◌, ◌*◌, ◌<◌, ◌≤◌};
ghost use Rattle.board.specs.Layout as at;
ghost use Rattle.board.specs.Sound.{Sound, Between};
ghost use Rattle.board.specs.Kinds.{memory_number, bus_number, refresh_number};

use crate::kinds::{Bus, Memory, Refresh};
use std::marker::Model;

// A board that passed: its words, of which a clause sees the list, and which are sound.
#[derive(Drop)]
pub struct Board<'a> {
    words: &'a [u32],
}

impl<'a> Model for Board<'a> {
    ghost use Rattle.std.specs.Prelude.{ℕ, List};
    ghost use Rattle.board.specs.Sound.{Sound};

    ghost Value = { List ℕ };

    ghost view = { λ b. b.words.now };

    ghost invariant = { λ b. Sound b.words.now };
}

impl<'a> Board<'a> {
    // The board of these words.
    pub fn of(words: &'a [u32]) -> Board<'a>
        requires { Sound words.now }
        ensures { result ≡ words.now }
    {
        Board { words }
    }

    // Its words.
    pub fn words(&self) -> &'a [u32]
        ensures { result.now ≡ self.now }
    {
        self.words
    }

    // What every board is known to have, for proofs alone.
    pub fn sound(&self)
        ensures { Sound self.now }
    {
        let _words = self.words;
    }

    // ℓ.
    pub fn cores(&self) -> u32
        ensures { (result ≡ at.cores self.now) × Between 1 8 result }
    {
        self.words[0]
    }

    // n.
    pub fn tasks(&self) -> u32
        ensures { (result ≡ at.tasks self.now) × Between 1 at.most_tasks result }
    {
        self.words[1]
    }

    // q.
    pub fn traces(&self) -> u32
        ensures { (result ≡ at.traces self.now) × Between 1 512 result }
    {
        self.words[2]
    }

    pub fn memory(&self) -> Memory
        ensures { (memory_number result ≡ at.memory self.now) × (memory_number result ≤ 3) }
    {
        match self.words[4] {
            0 => Memory::Plain,
            1 => Memory::Scratchpad,
            2 => Memory::OneCache,
            _ => Memory::TwoCaches,
        }
    }

    // The number of its caches: none with a scratchpad.
    pub fn cache_count(&self) -> u32
        ensures { (result ≡ at.cache_count self.now) × (result ≤ 2) }
    {
        self.words[4].saturating_sub(1)
    }

    pub fn bus(&self) -> Bus
        ensures { (bus_number result ≡ at.bus self.now) × (bus_number result ≤ 4) }
    {
        match self.words[5] {
            0 => Bus::FixedPriority,
            1 => Bus::ProcessorPriority,
            2 => Bus::Fifo,
            3 => Bus::RoundRobin,
            _ => Bus::Tdma,
        }
    }

    // v, where the bus has slots.
    pub fn slots_each(&self) -> u32
        requires { 3 ≤ at.bus self.now }
        ensures { (result ≡ at.slots_each self.now) × Between 1 8 result }
    {
        self.words[6]
    }

    // The slots of core y, which is not read before each core has its own (document 02, change 8).
    pub fn slots(&self, y: u32) -> u32
        requires { (3 ≤ at.bus self.now) × Between 1 (at.cores self.now) y }
        ensures { (result ≡ at.slots self.now y) × Between 1 8 result }
    {
        self.slots_each()
    }

    // d, the cycles of one bus access.
    pub fn access_cycles(&self) -> u32
        ensures { (result ≡ at.access_cycles self.now) × Between 1 255 result }
    {
        self.words[7]
    }

    pub fn refresh(&self) -> Refresh
        ensures { (refresh_number result ≡ at.refresh self.now) × (refresh_number result ≤ 2) }
    {
        match self.words[8] {
            0 => Refresh::Absent,
            1 => Refresh::Burst,
            _ => Refresh::Distributed,
        }
    }

    // Tr, where there is a refresh.
    pub fn refresh_interval(&self) -> u32
        requires { 1 ≤ at.refresh self.now }
        ensures { (result ≡ at.refresh_interval self.now) × Between 1 at.longest result }
    {
        self.words[9]
    }

    // The rows, where there is a refresh.
    pub fn refresh_rows(&self) -> u32
        requires { 1 ≤ at.refresh self.now }
        ensures { (result ≡ at.refresh_rows self.now) × Between 1 at.most_refresh_rows result }
    {
        self.words[10]
    }

    // dr, the cycles of one refresh.
    pub fn refresh_cycles(&self) -> u32
        ensures { (result ≡ at.refresh_cycles self.now) × (result ≤ 255) }
    {
        self.words[11]
    }

    // The pass limit.
    pub fn pass_limit(&self) -> u32
        ensures { (result ≡ at.pass_limit self.now) × (1 ≤ result) }
    {
        self.words[12]
    }

    // The code blocks that a scratchpad holds.
    pub fn held_code(&self) -> u32
        requires { at.memory self.now ≡ 1 }
        ensures { (result ≡ at.held_code self.now) × (result ≤ at.first_data_block) }
    {
        self.words[13]
    }

    // The data blocks that a scratchpad holds.
    pub fn held_data(&self) -> u32
        ensures { (result ≡ at.held_data self.now) × (result ≤ at.first_data_block) }
    {
        self.words[14]
    }

    // c, the sets of a cache, and of the code cache where data has its own.
    pub fn cache_sets(&self) -> u32
        requires { 2 ≤ at.memory self.now }
        ensures { (result ≡ at.cache_sets self.now) × Between 1 at.most_sets result }
    {
        self.words[13]
    }

    // The sets of the data cache, where data has its own.
    pub fn data_sets(&self) -> u32
        requires { at.memory self.now ≡ 3 }
        ensures { (result ≡ at.data_sets self.now) × Between 1 at.most_sets result }
    {
        self.words[14]
    }

    // The ways of each cache, where 0 stands for 1.
    pub fn ways(&self) -> u32
        ensures { (result ≡ at.ways self.now) × Between 1 8 result }
    {
        self.words[15].max(1)
    }

    // p, the distributed refreshes that may be put off.
    pub fn put_off(&self) -> u32
        ensures { (result ≡ at.put_off self.now) × (result ≤ at.most_put_off) }
    {
        self.words[16]
    }

    // Word `field` of task k.
    fn task_word(&self, k: usize, field: usize) -> u32
        requires { (k < at.tasks self.now) × (field < 5) }
        ensures word { result ≡ at.task_word field self.now k }
        ensures sound { Sound self.now }
    {
        let words = self.words;
        words[20 + 5 * k + field]
    }

    // The core of task k, from 1.
    pub fn core(&self, k: usize) -> u32
        requires { k < at.tasks self.now }
        ensures { (result ≡ at.core self.now k) × Between 1 8 result × (result ≤ at.cores self.now) }
    {
        self.task_word(k, 0)
    }

    // T of task k.
    pub fn period(&self, k: usize) -> u32
        requires { k < at.tasks self.now }
        ensures { (result ≡ at.period self.now k) × Between 1 at.longest result }
    {
        self.task_word(k, 1)
    }

    // D of task k.
    pub fn deadline(&self, k: usize) -> u32
        requires { k < at.tasks self.now }
        ensures { (result ≡ at.deadline self.now k) × Between 1 at.longest result }
    {
        self.task_word(k, 2)
    }

    // The traces of task k.
    pub fn trace_count(&self, k: usize) -> u32
        requires { k < at.tasks self.now }
        ensures { (result ≡ at.trace_count self.now k) × Between 1 8 result }
    {
        self.task_word(k, 3)
    }

    // J of task k, its release jitter.
    pub fn jitter(&self, k: usize) -> u32
        requires { k < at.tasks self.now }
        ensures { (result ≡ at.jitter self.now k) × (result ≤ at.deadline self.now k) × (result ≤ at.longest) }
    {
        self.task_word(k, 4)
    }

    // The largest time of task k that is not late: D − J.
    pub fn bound(&self, k: usize) -> u32
        requires { k < at.tasks self.now }
        ensures { (result ≡ at.deadline self.now k - at.jitter self.now k) × (result ≤ at.longest) }
    {
        self.deadline(k) - self.jitter(k)
    }

    // The length of trace t.
    pub fn trace_length(&self, t: usize) -> u32
        requires { t < at.traces self.now }
        ensures { (result ≡ at.trace_length self.now t) × Between 1 1024 result }
    {
        let words = self.words;
        let n = words[1] as usize;
        words[20 + 5 * n + t]
    }
}

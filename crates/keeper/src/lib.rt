// The keeper of the bus: four cores share one chip select, and each has a queue of transfers that wait. Document 02, item 9.
#![tactic(auto)]

ghost use Rattle.std.specs.Prelude.{◌≡◌, ◌<◌};
ghost use Rattle.keeper.specs.Keeper.{queue_sound, keeper_sound, new_keeper, queue_at, put_of, front_of, rest_of};
ghost use Rattle.keeper.specs.Keeper.{number_of, number_in, added, add_of, whose_turn, granted, grant_of};

// The transfers of one core that wait: `length` tags from place `head` on, round from place 7 to 0. The other places mean nothing.
// A length beside its places, for C's `sleet_queue` has these three fields.
#[repr(C)]
#[derive(Clone, Copy, Debug, PartialEq, Eq)]
pub struct Queue {
    pub tags: [u8; 8],
    pub head: u8,
    pub length: u8,
}

// A queue for each core, and the core that was granted last.
#[repr(C)]
#[derive(Clone, Copy, Debug, PartialEq, Eq)]
pub struct Keeper {
    pub queues: [Queue; 4],
    pub last: u8,
}

// Why a keeper refuses.
#[derive(Clone, Copy, Debug, PartialEq, Eq)]
pub enum Refused {
    BadCore,
    QueueFull,
    AllEmpty,
    BadKeeper,
}

// What is granted: the bus to a core, for the transfer that was the front of its queue.
#[derive(Clone, Copy, Debug, PartialEq, Eq)]
pub struct Grant {
    pub core: u8,
    pub tag: u8,
}

// What comes of an adding: the keeper, and whether it was refused.
#[derive(Clone, Copy, Debug, PartialEq, Eq)]
pub struct Added {
    pub keeper: Keeper,
    pub answer: Result<(), Refused>,
}

// What comes of a grant: the keeper, and what is granted or why nothing is. (Not one generic struct for both: C has one for each.)
#[derive(Clone, Copy, Debug, PartialEq, Eq)]
pub struct Granted {
    pub keeper: Keeper,
    pub answer: Result<Grant, Refused>,
}

// The number of a refusal, which C is told.
pub fn number_of(r: Refused) -> u8
    ensures { result ≡ number_of r }
{
    match r {
        Refused::BadCore => 14,
        Refused::QueueFull => 15,
        Refused::AllEmpty => 16,
        Refused::BadKeeper => 20,
    }
}

// The number of an answer: 0 where nothing is refused.
pub fn number_in<T: Drop>(answer: Result<T, Refused>) -> u8
    ensures { result ≡ number_in answer }
{
    match answer {
        Ok(_) => 0,
        Err(why) => number_of(why),
    }
}

impl Queue {
    // Whether place and length are in range.
    pub fn sound(self) -> bool
        ensures { result ≡ queue_sound self }
    {
        self.head < 8 && self.length <= 8
    }

    // A tag goes to the back.
    fn put(&mut self, tag: u8)
        requires { (self.old.head < 8) × (self.old.length < 8) }
        ensures { self.new ≡ put_of self.old tag }
    {
        let back = (self.head + self.length) % 8;
        self.tags[usize::from(back)] = tag;
        self.length += 1;
    }

    // The tag at the front is taken.
    fn take(&mut self) -> u8
        requires { (self.old.head < 8) × (0 < self.old.length) }
        ensures tag { result ≡ front_of self.old }
        ensures rest { self.new ≡ rest_of self.old }
    {
        let tag = self.tags[usize::from(self.head)];
        self.head = (self.head + 1) % 8;
        self.length -= 1;
        tag
    }
}

impl Keeper {
    // Four empty queues, and the first grant looks from core 0.
    pub fn new() -> Keeper
        ensures { result ≡ new_keeper }
    {
        let q = Queue {
            tags: [0; 8],
            head: 0,
            length: 0,
        };
        Keeper {
            queues: [q; 4],
            last: 3,
        }
    }

    // The queue of a core.
    fn queue(self, core: u8) -> Queue
        requires { core < 4 }
        ensures { result ≡ queue_at self core }
    {
        self.queues[usize::from(core)]
    }

    // Whether every queue and the last core are in range.
    pub fn sound(self) -> bool
        ensures { result ≡ keeper_sound self }
    {
        self.queues.iter().all(|q| q.sound()) && self.last < 4
    }

    // A transfer goes to the back of a core's queue.
    #[tactic(auto, using(crate::proofs::Sound::sound_facts), unfolding(crate::specs::Keeper::add_of))]
    fn put(&mut self, core: u8, tag: u8) -> Result<(), Refused>
        ensures { added self.new result ≡ add_of self.old core tag }
    {
        if !self.sound() {
            return Err(Refused::BadKeeper);
        }
        if 4 <= core {
            return Err(Refused::BadCore);
        }
        if self.queue(core).length == 8 {
            return Err(Refused::QueueFull);
        }
        self.queues[usize::from(core)].put(tag);
        Ok(())
    }

    // The same of a keeper by value: it goes in whole and comes back whole.
    pub fn add(mut self, core: u8, tag: u8) -> Added
        ensures { result ≡ add_of self core tag }
    {
        let answer = self.put(core, tag);
        Added {
            keeper: self,
            answer,
        }
    }

    // Whose turn it is: the first core with a transfer waiting, from the core after the last granted, round from 3 to 0.
    fn whose_turn(self) -> Option<u8>
        requires { self.last < 4 }
        ensures { result ≡ whose_turn self }
    {
        (0..4u8)
            .map(|k| (self.last + 1 + k) % 4)
            .find(|core| 0 < self.queue(*core).length)
    }

    // The next transfer on the bus is taken from the front of its core's queue.
    #[tactic(auto, using(crate::proofs::Sound::sound_facts, crate::proofs::Searches::turn_below, crate::proofs::Searches::turn_waits), unfolding(crate::specs::Keeper::grant_of))]
    fn take(&mut self) -> Result<Grant, Refused>
        ensures { granted self.new result ≡ grant_of self.old }
    {
        if !self.sound() {
            return Err(Refused::BadKeeper);
        }
        let core = self.whose_turn().ok_or(Refused::AllEmpty)?;
        let tag = self.queues[usize::from(core)].take();
        self.last = core;
        Ok(Grant { core, tag })
    }

    // The same of a keeper by value.
    pub fn grant(mut self) -> Granted
        ensures { result ≡ grant_of self }
    {
        let answer = self.take();
        Granted {
            keeper: self,
            answer,
        }
    }
}

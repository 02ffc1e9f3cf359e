//! What rounds had to do, and whether the next is worth threads by that.
ghost use Rattle.std.specs.Prelude.{◌≡◌, ◌≤◌, ◌<◌};

/// How many instructions a round has to have beside its busiest host for each thread: ten times what it takes to start one and to
/// wait for its end.
const THREAD_WORTH: u64 = 300_000;

/// The same for each host that is moved to a worker and back.
const MOVE_WORTH: u64 = 300;

/// And beside that for each that has something to do.
const RUN_WORTH: u64 = 2_200;

/// How many instructions a round takes beside what hosts do in it.
const ROUND_WORK: u64 = 200;

/// The mean of a round's numbers and those before it has so large a part of it: an eighth.
const PART: u64 = 8;

/// In rounds that had less to do no thread is started, whatever the hosts.
const SHARE_WORTH: u64 = 50_000;

/// How many hosts that have something to do are worth a thread of their own, where each thread has its share of hosts and none is moved
/// to another: an event takes two microseconds at least, and to start a thread and to wait for its end some seventy.
const SHARE_HOSTS: u64 = 100;

/// How a round is run.
#[derive(Drop)]
pub struct Spread {
    /// In so many threads.
    pub threads: u32,
    /// Each worker has a share of hosts for itself, in which so many at most have something to do; none where each takes hosts that are left.
    pub share: Option<usize>,
}

impl Spread {
    /// By the caller alone.
    pub fn alone() -> Spread
        ensures { result.threads ≡ 1 }
    {
        Spread {
            threads: 1,
            share: None,
        }
    }

    /// By workers that take hosts that are left, in so many threads.
    fn taking(threads: u32) -> Spread
        ensures { result.threads ≡ threads }
    {
        Spread {
            threads,
            share: None,
        }
    }

    /// In shares of so many hosts that have something to do, in so many threads at most; by the caller alone where these are few.
    fn sharing(most: u32, busy: usize) -> Spread
        requires { 0 < most }
        ensures { (0 < result.threads) × (result.threads ≤ most) }
    {
        let worth = (busy as u64 / SHARE_HOSTS).max(1);
        let threads = if worth < u64::from(most) {
            worth as u32
        } else {
            most
        };
        Spread {
            threads,
            share: Some(busy.div_ceil(most as usize)),
        }
    }
}

/// What hosts had to do in a round: how many they are, what all of them had to do, and what the busiest had. Both are numbers of
/// instructions, about, and no clause speaks of them.
#[derive(Drop)]
pub struct RoundLoad {
    hosts: u64,
    all: u64,
    busiest: u64,
}

impl RoundLoad {
    /// Of no host.
    pub fn new() -> RoundLoad {
        RoundLoad {
            hosts: 0,
            all: 0,
            busiest: 0,
        }
    }

    /// Of one host more, which had so much to do.
    pub fn add(&mut self, work: u64) {
        self.hosts = self.hosts.saturating_add(1);
        self.all = self.all.saturating_add(work);
        self.busiest = self.busiest.max(work);
    }

    /// Of other hosts too.
    pub fn join(&mut self, more: RoundLoad) {
        self.hosts = self.hosts.saturating_add(more.hosts);
        self.all = self.all.saturating_add(more.all);
        self.busiest = self.busiest.max(more.busiest);
    }
}

/// What rounds had to do: all of them, and the mean of the last rounds, where the latest count most, of what they had to do beside
/// their busiest host, which is what other threads can take off the caller. None where nothing is known of any.
#[derive(Drop)]
pub struct Load {
    all: u64,
    beside: Option<u64>,
}

impl Load {
    /// Before the first round.
    pub fn new() -> Load {
        Load {
            all: 0,
            beside: None,
        }
    }

    /// About what all rounds had to do so far, as a number of instructions. No clause speaks of it.
    pub fn all(&self) -> u64 {
        self.all
    }

    /// Whether a round may be worth threads, by what the last rounds had to do; also where nothing is known of any.
    pub fn may_spread(&self) -> bool {
        match self.beside {
            Some(beside) => SHARE_WORTH <= beside,
            None => true,
        }
    }

    /// In how many threads a round of so many hosts, of which so many are busy, is run by workers that take hosts that are left: as many as
    /// it is worth by what the last rounds had to do, or all, where nothing is known of any.
    fn taking_threads(&self, most: u32, hosts: usize, busy: usize) -> u32
        requires { 0 < most }
        ensures { (0 < result) × (result ≤ most) }
    {
        let Some(beside) = self.beside else {
            return most;
        };
        let moves = (hosts as u64).saturating_mul(MOVE_WORTH);
        let runs = (busy as u64).saturating_mul(RUN_WORTH);
        let worth = (beside.saturating_sub(moves.saturating_add(runs)) / THREAD_WORTH).max(1);
        if worth < u64::from(most) {
            worth as u32
        } else {
            most
        }
    }

    /// How a round of so many hosts, of which so many are busy, is run in so many threads at most: by workers that take hosts that are
    /// left, where that is worth threads, else in shares, where there are many hosts for each thread.
    pub fn spread(&self, most: u32, hosts: usize, busy: usize) -> Spread
        requires { 0 < most }
        ensures { (0 < result.threads) × (result.threads ≤ most) }
    {
        let taking = self.taking_threads(most, hosts, busy);
        if 1 < taking {
            return Spread::taking(taking);
        }
        Spread::sharing(most, busy)
    }

    /// Notes what a round had to do. One that a single thread alone could have run leaves the mean as it is.
    pub fn note(&mut self, round: RoundLoad) {
        self.all = self
            .all
            .saturating_add(round.all.saturating_add(ROUND_WORK));
        if round.hosts < 2 {
            return;
        }
        let beside = round.all.saturating_sub(round.busiest);
        let mean = match self.beside {
            Some(mean) => mean
                .saturating_sub(mean / PART)
                .saturating_add(beside / PART),
            None => beside,
        };
        self.beside = Some(mean);
    }
}

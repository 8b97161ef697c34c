//! How long a peer may hold the one who serves it.
ghost use Rattle.std.specs.Prelude.{◌≡◌};
ghost use Rattle.std.specs.Duration.{as_nanos};

use std::cell::Cell;
use std::io;
use std::time::{Clock, Duration, Instant};

/// How many seconds a peer may usually send nothing between two requests.
const SECONDS_BETWEEN: u64 = 1;

/// How many seconds a peer is usually waited for in one request, and in its answers.
const SECONDS_WITHIN: u64 = 10;

/// How many seconds what a peer sends behind its last request is usually read away.
const SECONDS_AFTER: u64 = 1;

/// How many seconds a peer may usually keep its connection while others wait.
const SECONDS_AMONG_OTHERS: u64 = 10;

/// How many seconds a peer may usually keep its connection.
const SECONDS_IN_ALL: u64 = 60;

/// How many milliseconds a peer whose turn is over is waited for, so that a request which came
/// before is answered.
const LAST_MILLISECONDS: u64 = 1;

/// How long a peer may hold the one who serves it.
#[derive(Clone, Copy, PartialEq, Eq)]
pub struct Patience {
    /// How long it may send nothing between two requests, and before the first.
    pub between: Duration,
    /// How long it is waited for in one request, from its first byte on, and how long in answers
    /// that are written, from their first byte to the flush.
    pub within: Duration,
    /// How long what it sends behind the last request is read away.
    pub after: Duration,
    /// How long it may keep its connection, from the beginning on, while others wait. Its turn ends
    /// between two requests.
    pub among_others: Duration,
    /// How long it may keep its connection though nobody else waits.
    pub in_all: Duration,
}

impl Patience {
    /// One second between requests, ten within a request or its answers, and one after the last; ten
    /// in all while others wait, and a minute where nobody waits.
    pub fn usual() -> Patience
        ensures between { as_nanos result.between ≡ 1_000_000_000 }
        ensures within { as_nanos result.within ≡ 10_000_000_000 }
        ensures after { as_nanos result.after ≡ 1_000_000_000 }
        ensures among_others { as_nanos result.among_others ≡ 10_000_000_000 }
        ensures in_all { as_nanos result.in_all ≡ 60_000_000_000 }
    {
        Patience {
            between: Duration::from_secs(SECONDS_BETWEEN),
            within: Duration::from_secs(SECONDS_WITHIN),
            after: Duration::from_secs(SECONDS_AFTER),
            among_others: Duration::from_secs(SECONDS_AMONG_OTHERS),
            in_all: Duration::from_secs(SECONDS_IN_ALL),
        }
    }
}

/// Where peers are served, one after another: it tells the time, and whether others wait.
pub trait Desk: Clock {
    /// Whether another peer waits for its turn.
    fn others_wait(&self) -> bool;
}

impl<D: Desk> Desk for &D {
    fn others_wait(&self) -> bool {
        (**self).others_wait()
    }
}

/// A desk with one peer alone, by this clock.
#[derive(Drop)]
pub struct Alone<T>(pub T);

impl<T: Clock> Clock for Alone<T> {
    fn monotonic(&self) -> io::Result<Duration> {
        self.0.monotonic()
    }

    fn since_1970(&self) -> io::Result<Duration> {
        self.0.since_1970()
    }
}

impl<T: Clock> Desk for Alone<T> {
    fn others_wait(&self) -> bool {
        false
    }
}

/// What a peer is waited for.
#[derive(Clone, Copy, PartialEq, Eq)]
enum Phase {
    /// The first byte of a request.
    BetweenRequests,
    /// The rest of a request.
    InRequest,
    /// That it takes answers.
    InAnswers,
}

/// How long a peer may still be waited for. A reader and a writer of one socket share it.
#[derive(Drop)]
pub struct Pace<D> {
    desk: D,
    patience: Patience,
    /// When the peer's turn began, if the clock told it.
    begun: Option<Instant>,
    phase: Cell<Phase>,
    left: Cell<Duration>,
    is_over: Cell<bool>,
}

impl<D: Desk> Pace<D> {
    /// That of a peer which has sent nothing yet, and whose turn begins.
    pub fn new(desk: D, patience: Patience) -> Pace<D> {
        let begun = Instant::now(&desk).ok();
        Pace {
            desk,
            patience,
            begun,
            phase: Cell::new(Phase::BetweenRequests),
            left: Cell::new(patience.between),
            is_over: Cell::new(false),
        }
    }

    /// What tells the time.
    pub(crate) fn desk(&self) -> &D {
        &self.desk
    }

    /// Whether the peer's turn ended by time.
    pub fn is_over(&self) -> bool {
        self.is_over.get()
    }

    /// For how long the peer may still be waited for.
    pub(crate) fn left(&self) -> Duration {
        self.left.get()
    }

    /// Sets for how long the peer may still be waited for.
    pub(crate) fn leave(&self, left: Duration) {
        self.left.set(left);
    }

    /// How long the peer has kept its connection. Where the clock fails, for ever.
    fn kept(&self) -> Duration {
        match self.begun {
            None => Duration::MAX,
            Some(begun) => begun.elapsed(&self.desk).unwrap_or(Duration::MAX),
        }
    }

    /// Whether the peer had its time.
    fn had_its_time(&self) -> bool {
        let kept = self.kept();
        kept >= self.patience.in_all
            || (kept >= self.patience.among_others && self.desk.others_wait())
    }

    /// The peer is about to be waited for. Between two requests its turn may be over: then it is
    /// given a moment once, for what it has sent before, and no time after that.
    pub(crate) fn waits(&self) {
        if self.phase.get() != Phase::BetweenRequests {
            return;
        }
        let was_over = self.is_over.get();
        self.is_over.set(self.had_its_time());
        if self.is_over.get() {
            let moment = if was_over { 0 } else { LAST_MILLISECONDS };
            let left = self.left.get().min(Duration::from_millis(moment));
            self.left.set(left);
        }
    }

    /// Bytes came. The first ones begin a request.
    pub(crate) fn came(&self) {
        if self.phase.get() == Phase::BetweenRequests {
            self.phase.set(Phase::InRequest);
            self.left.set(self.patience.within);
        }
    }

    /// Bytes are to be written. The first ones begin answers.
    pub(crate) fn answers(&self) {
        if self.phase.get() != Phase::InAnswers {
            self.phase.set(Phase::InAnswers);
            self.left.set(self.patience.within);
        }
    }

    /// The answers are out, and the next request is waited for.
    pub(crate) fn answered(&self) {
        self.phase.set(Phase::BetweenRequests);
        self.left.set(self.patience.between);
    }
}

//! A feed that runs.

ghost use Rattle.std.specs.Prelude.{◌≡◌, ◌<◌, ◌≤◌, ◌&&◌, false, length, take, drop};
ghost use Rattle.session_core.specs.Running.{Running, rest, is_none, next_feed, next_requests};

use sg_history::{Options, Row, Rows};
use std::marker::Model;

/// The rows of its last look that are not answered yet, of which the first ones, at most a batch of them, are on
/// offer in the request of a number; the front of that look; and whether the device was informed that it has all rows.
#[derive(Drop)]
pub(crate) struct Feed {
    rows: Vec<Row>,
    answered: usize,
    batch: u64,
    options: Options,
    continuous: bool,
    number: u64,
    front: u64,
    caught_up: bool,
}

impl Model for Feed {
    ghost use Rattle.std.specs.Prelude.{◌<◌, ◌≤◌, drop, length};
    ghost use Rattle.session_core.specs.Running.{Running};

    ghost Value = { Running };

    ghost view = { λ f. record {
      rows = drop f.answered f.rows.items;
      batch = f.batch;
      options = f.options;
      continuous = f.continuous;
      number = f.number;
      front = f.front;
      caught_up = f.caught_up;
    } };

    ghost invariant = { λ f. (0 < f.batch) × (f.batch ≤ 10000)
        × (f.answered ≤ length f.rows.items) };
}

impl Feed {
    /// A feed of these rows of a look at this front, of which none is on offer yet.
    pub(crate) fn new(
        rows: Rows,
        batch: u64,
        options: Options,
        continuous: bool,
        front: u64,
    ) -> Feed
        requires some { 0 < batch }
        requires bound { batch ≤ 10000 }
        ensures { result ≡ record {
          rows = rows;
          batch = batch;
          options = options;
          continuous = continuous;
          number = 0;
          front = front;
          caught_up = false;
        } }
    {
        Feed {
            rows: rows.into_vec(),
            answered: 0,
            batch,
            options,
            continuous,
            number: 0,
            front,
            caught_up: false,
        }
    }

    pub(crate) fn options(&self) -> &Options
        ensures { result.now ≡ self.now.options }
    {
        &self.options
    }

    pub(crate) fn continuous(&self) -> bool
        ensures { result ≡ self.now.continuous }
    {
        self.continuous
    }

    pub(crate) fn number(&self) -> u64
        ensures { result ≡ self.now.number }
    {
        self.number
    }

    pub(crate) fn front(&self) -> u64
        ensures { result ≡ self.now.front }
    {
        self.front
    }

    pub(crate) fn caught_up(&self) -> bool
        ensures { result ≡ self.now.caught_up }
    {
        self.caught_up
    }

    pub(crate) fn batch(&self) -> u64
        ensures value { result ≡ self.now.batch }
        ensures some { 0 < result }
        ensures bound { result ≤ 10000 }
    {
        self.batch
    }

    fn unanswered(&self) -> &[Row]
        ensures { result.now ≡ self.now.rows }
    {
        &self.rows[self.answered..]
    }

    /// Whether no row is left.
    pub(crate) fn waits(&self) -> bool
        ensures { result ≡ is_none self.now.rows }
    {
        self.unanswered().is_empty()
    }

    /// The rows on offer.
    pub(crate) fn offered(&self) -> &[Row]
        ensures value { result.now ≡ take self.now.batch self.now.rows }
        ensures bound { length result.now ≤ 10000 }
    {
        let rows = self.unanswered();
        &rows[..rows.len().min(self.batch as usize)]
    }

    /// The rows that are not yet on offer.
    pub(crate) fn later(&self) -> &[Row]
        ensures { result.now ≡ drop self.now.batch self.now.rows }
    {
        let rows = self.unanswered();
        &rows[rows.len().min(self.batch as usize)..]
    }

    /// The feed once the rows on offer are answered.
    pub(crate) fn rest(self) -> Feed
        ensures { result ≡ rest self }
    {
        let mut feed = self;
        let left = feed.rows.len() - feed.answered;
        feed.answered += left.min(feed.batch as usize);
        feed
    }

    /// The feed with the rows of its next look, at this front.
    pub(crate) fn with_rows(self, rows: Rows, front: u64) -> Feed
        ensures { result ≡ record self { rows = rows; front = front } }
    {
        Feed {
            rows: rows.into_vec(),
            answered: 0,
            front,
            ..self
        }
    }

    /// The feed once its next rows are on offer, where any are left, and how many requests the gateway has then put.
    pub(crate) fn onward(self, requests: u64) -> (Option<Feed>, u64)
        requires room { requests < 18446744073709551615 }
        ensures feed { result.0 ≡ next_feed requests self }
        ensures requests { result.1 ≡ next_requests requests self }
    {
        let mut feed = self;
        if !feed.waits() {
            feed.number = requests + 1;
            return (Some(feed), requests + 1);
        }
        if !feed.continuous {
            return (None, requests + 1);
        }
        let offers = if feed.caught_up { 0 } else { 1 };
        feed.caught_up = true;
        (Some(feed), requests + offers)
    }
}
